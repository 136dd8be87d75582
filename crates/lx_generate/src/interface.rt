//! The interface.

ghost use Rattle.std.specs.Prelude.{◌≡◌, ◌≤◌, length};
ghost use Rattle.lx_generate.specs.Interface.{interface_text};

const INTERFACE: &str = "\
interface 1
reftype device
iterator skb_caps(p) { write p, 24; write load64(p), load64(p + 8) }
slot probe : i32 (ptr dev) principal(dev) pre(copy(ref(device), dev)) post(if (return < 0) transfer(ref(device), dev))
slot xmit : i32 (ptr skb, ptr dev) principal(dev) pre(transfer(skb_caps(skb))) post(if (return < 0) transfer(skb_caps(skb)))
field %struct.dev_ops 0 : probe
field %struct.dev_ops 1 : xmit
export kmalloc : ptr (i64 n) post(if (return != 0) transfer(write, return, n))
export kzalloc : ptr (i64 n) post(if (return != 0) transfer(write, return, n))
export kfree : void (ptr p) pre(if (p != 0) transfer(write, p, load64(p - 16)))
export dev_register : ptr (ptr ops)
export dev_set_priv : void (ptr dev, ptr v) pre(check(ref(device), dev))
export dev_zero : void (ptr p, i64 n) pre(check(write, p, n))
export dev_wipe : void (ptr p, i64 n) pre(transfer(write, p, n)) post(transfer(write, p, n))
export skb_new : ptr (i64 n) post(if (return != 0) transfer(write, return, 24)) post(if (return != 0) transfer(write, load64(return), n))
export netif_rx : i32 (ptr skb) pre(transfer(skb_caps(skb)))
export hook_get : ptr () post(copy(call, return))
export hook_fn : i64 (i64 x)
";

/// The interface of the kernel. Each line ends with a line feed.
#[tactic(auto, unfolding(crate::specs::Interface::interface_text))]
pub fn interface_text() -> &'static str
    ensures text { result.now ≡ interface_text }
    ensures length { length result.now ≤ 4096 }
{
    INTERFACE
}
