//! Both threads at once.

ghost use Rattle.std.specs.Prelude.{IfOk, OnOk};

use hdfs_wire::NoMemory;
use std::sync::Wait;
use std::thread::{Threads, join_mut};
use std::time::Clock;

/// What one of the two threads does with its end of the connection.
pub(crate) trait Half<E> {
    // What it begins with.
    ghost begins: { Self → Type 0 };

    // What it has done once it went through: it and its end before, and afterwards.
    ghost done: { Self → E → Self → E → Type 0 };

    // What stands however it ended: its end before, and afterwards.
    ghost later: { E → E → Type 0 };

    /// Runs it, until it is over or there is no memory.
    fn run<R: Wait + Clock>(&mut self, rt: &R, end: &mut E) -> Result<(), NoMemory>
        requires { begins self.old }
        ensures done { OnOk result (done self.old end.old self.new end.new) }
        ensures later { later end.old end.new };
}

/// Runs both threads, the second in this one, and gives them back once both went through.
pub(crate) fn run_both<
    D: Send,
    E,
    P: Half<D> + Send + Drop,
    Q: Half<E> + Drop,
    R: Threads + Wait + Clock + Sync,
>(rt: &R, mut asker: P, acks: &mut D, mut sender: Q, out: &mut E) -> Result<(P, Q), NoMemory>
    requires { P.begins asker × Q.begins sender }
    ensures done { IfOk result (λ r. P.done asker acks.old r.0 acks.new × Q.done sender out.old r.1 out.new) }
    ensures later { P.later acks.old acks.new × Q.later out.old out.new }
{
    let (asked, sent) = join_mut(
        rt,
        &mut || -> Result<(), NoMemory>
            requires { P.begins asker }
            ensures done { OnOk result (P.done asker.entry acks.entry.now asker.exit acks.exit.now) }
            ensures later { P.later acks.entry.now acks.exit.now }
        { asker.run(rt, acks) },
        &mut || -> Result<(), NoMemory>
            requires { Q.begins sender }
            ensures done { OnOk result (Q.done sender.entry out.entry.now sender.exit out.exit.now) }
            ensures later { Q.later out.entry.now out.exit.now }
        { sender.run(rt, out) },
    );
    asked?;
    sent?;
    Ok((asker, sender))
}
