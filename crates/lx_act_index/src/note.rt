//! Acts as they are noted in lines and threads.
ghost use Rattle.std.specs.Prelude.{◌≡◌, true, OnOk, OnErr};
ghost use Rattle.lx_caps.specs.declared.Act.TheVariants.{Lend};
ghost use Rattle.lx_caps.specs.Placed.{is_placed, is_placed_act};
ghost use Rattle.lx_act_index.specs.Index.{Keeps, Notes};
ghost use Rattle.lx_act_index.specs.Table.{IsTable};

use crate::lines::Said;
use crate::table::{Saying, Table, say};
use crate::threads::{Thread, newest_loan, open_loan, shut_all_loans, shut_loans};
use lx_caps::{Act, Cap, Principal};
use lx_words::Memory;

/// A thread lends a principal a capability.
#[derive(Clone, Copy)]
struct Lent {
    thread: u32,
    to: Principal,
    cap: Cap,
}

/// Notes a lend. It says nothing where the newest loan of its thread has ended.
fn note_lend(table: &mut Table, threads: &[Thread], number: u32, lent: Lent) -> Result<(), Memory>
    requires placed { is_placed lent.cap ≡ true }
    requires table { IsTable table.old }
    ensures table { IsTable table.new }
    ensures ok { OnOk result (Notes number (Lend lent.thread lent.to lent.cap) table.old threads.now table.new threads.now) }
    ensures err { OnErr result (Keeps table.old threads.now table.new threads.now) }
{
    match newest_loan(threads, lent.thread) {
        Some(loan) => {
            let saying = Saying {
                said: Said::Lend(loan, lent.to),
                act: number,
            };
            say(table, threads, saying, lent.cap)?;
            Ok(())
        }
        None => Ok(()),
    }
}

/// Notes an act, which has the number.
pub fn note_act(
    table: &mut Table,
    threads: &mut Vec<Thread>,
    number: u32,
    act: Act,
) -> Result<(), Memory>
    requires placed { is_placed_act act ≡ true }
    requires table { IsTable table.old }
    ensures table { IsTable table.new }
    ensures ok { OnOk result (Notes number act table.old threads.old.items table.new threads.new.items) }
    ensures err { OnErr result (Keeps table.old threads.old.items table.new threads.new.items) }
{
    match act {
        Act::Grant(to, cap) => {
            let saying = Saying {
                said: Said::Grant(to),
                act: number,
            };
            say(table, threads.as_slice(), saying, cap)?;
            Ok(())
        }
        Act::Strip(cap) => {
            let saying = Saying {
                said: Said::Strip,
                act: number,
            };
            say(table, threads.as_slice(), saying, cap)?;
            Ok(())
        }
        Act::Zero { .. } => Ok(()),
        Act::Loan(thread) => {
            open_loan(table.alloc, threads, thread, number)?;
            Ok(())
        }
        Act::Lend(thread, to, cap) => {
            note_lend(table, threads.as_slice(), number, Lent { thread, to, cap })?;
            Ok(())
        }
        Act::Shut(thread, n) => {
            shut_loans(threads, thread, n);
            Ok(())
        }
        Act::ShutAll(thread) => {
            shut_all_loans(threads, thread);
            Ok(())
        }
    }
}
