//! Lists that are linked by numbers.
ghost use Rattle.std.specs.Prelude.{◌≡◌, ◌<◌, ◌∷◌, [], ◌++◌, false, true, IfOk, OnOk, OnErr, length, map, slice_set};
ghost use Rattle.lx_cap_nodes.specs.Links.{IsFamily, IsWithin, at_list, heads_passing, lists_of, with_next, with_previous};
ghost use Rattle.lx_cap_nodes.specs.Names.{drop_name, first_of, has, is_listed, next_in};

use lx_words::Memory;

/// What stands before a node and behind it in its list, and the number of that list.
#[derive(Clone, Copy)]
pub(crate) struct Link {
    pub(crate) previous: Option<usize>,
    pub(crate) next: Option<usize>,
    pub(crate) list: usize,
}

/// The link of a node that stands in no list.
pub(crate) fn no_link() -> Link {
    Link {
        previous: None,
        next: None,
        list: 0,
    }
}

fn set_previous(links: &mut Vec<Link>, at: Option<usize>, previous: Option<usize>)
    requires { IsWithin at (length links.old.items) }
    ensures { links.new.items ≡ with_previous links.old.items at previous }
{
    if let Some(k) = at {
        let link = links[k];
        links[k] = Link {
            previous,
            next: link.next,
            list: link.list,
        };
    }
}

fn set_next(links: &mut Vec<Link>, at: Option<usize>, next: Option<usize>)
    requires { IsWithin at (length links.old.items) }
    ensures { links.new.items ≡ with_next links.old.items at next }
{
    if let Some(k) = at {
        let link = links[k];
        links[k] = Link {
            previous: link.previous,
            next,
            list: link.list,
        };
    }
}

/// What stands before a node, or its list, gets what stands behind the node.
fn pass_over(links: &mut Vec<Link>, heads: &mut Vec<Option<usize>>, link: Link)
    requires previous { IsWithin link.previous (length links.old.items) }
    requires list { link.list < length heads.old.items }
    ensures links { links.new.items ≡ with_next links.old.items link.previous link.next }
    ensures heads { heads.new.items ≡ heads_passing heads.old.items link.previous link.list link.next }
{
    match link.previous {
        Some(_) => set_next(links, link.previous, link.next),
        None => heads[link.list] = link.next,
    }
}

/// Puts a node that stands in no list before all others of a list.
pub(crate) fn put_first(
    links: &mut Vec<Link>,
    heads: &mut Vec<Option<usize>>,
    list: usize,
    node: usize,
)
    requires family { IsFamily links.old.items heads.old.items (lists_of links.old.items heads.old.items) }
    requires in_use { list < length heads.old.items }
    requires within { node < length links.old.items }
    requires fresh { is_listed node (lists_of links.old.items heads.old.items) ≡ false }
    ensures family { IsFamily links.new.items heads.new.items (slice_set (lists_of links.old.items heads.old.items) list
        (node ∷ at_list (lists_of links.old.items heads.old.items) list)) }
    ensures count { length links.new.items ≡ length links.old.items }
{
    let next = heads[list];
    links[node] = Link {
        previous: None,
        next,
        list,
    };
    set_previous(links, next, Some(node));
    heads[list] = Some(node);
}

/// Takes a node out of its list.
pub(crate) fn take_out(links: &mut Vec<Link>, heads: &mut Vec<Option<usize>>, node: usize)
    requires family { IsFamily links.old.items heads.old.items (lists_of links.old.items heads.old.items) }
    requires listed { is_listed node (lists_of links.old.items heads.old.items) ≡ true }
    ensures family { IsFamily links.new.items heads.new.items (map (drop_name node) (lists_of links.old.items heads.old.items)) }
    ensures count { length links.new.items ≡ length links.old.items }
{
    let link = links[node];
    pass_over(links, heads, link);
    set_previous(links, link.next, link.previous);
}

/// Adds an empty list, and gives its number.
pub(crate) fn add_empty(links: &Vec<Link>, heads: &mut Vec<Option<usize>>) -> Result<usize, Memory>
    requires family { IsFamily links.now.items heads.old.items (lists_of links.now.items heads.old.items) }
    ensures number { IfOk result (λ l. l ≡ length heads.old.items) }
    ensures ok { OnOk result (IsFamily links.now.items heads.new.items (lists_of links.now.items heads.old.items ++ [] ∷ [])) }
    ensures err { OnErr result (heads.new.items ≡ heads.old.items) }
{
    let number = heads.len();
    match heads.push(None) {
        Ok(()) => Ok(number),
        Err(_) => Err(Memory),
    }
}

/// The first node of a list.
pub(crate) fn first_in(links: &Vec<Link>, heads: &Vec<Option<usize>>, list: usize) -> Option<usize>
    requires family { IsFamily links.now.items heads.now.items (lists_of links.now.items heads.now.items) }
    requires in_use { list < length heads.now.items }
    ensures { result ≡ first_of (at_list (lists_of links.now.items heads.now.items) list) }
{
    heads[list]
}

/// The node behind a node in its list.
pub(crate) fn after_in(links: &Vec<Link>, heads: &Vec<Option<usize>>, node: usize) -> Option<usize>
    requires family { IsFamily links.now.items heads.now.items (lists_of links.now.items heads.now.items) }
    requires listed { is_listed node (lists_of links.now.items heads.now.items) ≡ true }
    ensures { result ≡ next_in node (lists_of links.now.items heads.now.items) }
{
    links[node].next
}

/// The list that a node stands in.
pub(crate) fn list_of(links: &Vec<Link>, heads: &Vec<Option<usize>>, node: usize) -> usize
    requires family { IsFamily links.now.items heads.now.items (lists_of links.now.items heads.now.items) }
    requires listed { is_listed node (lists_of links.now.items heads.now.items) ≡ true }
    ensures { has node (at_list (lists_of links.now.items heads.now.items) result) ≡ true }
{
    links[node].list
}
