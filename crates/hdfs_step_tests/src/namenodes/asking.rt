//! A service of namenodes is asked.
ghost use Rattle.hdfs_namenode.specs.Asked.{IsServiceOf};
ghost use Rattle.hdfs_step_tests.specs.Namenodes.{shown_of};

use crate::namenodes::fake_namenodes::{FakeNamenodes, Gives};
use crate::namenodes::telling::{tell_asked, tell_error};
use crate::steps::{Said, Words};
use hdfs_cluster::{Ask, CompleteAsk};
use hdfs_namenode::NameServiceProxy;
use hdfs_wire::Text;
use std::alloc::Global;

/// What a namenode gives. The connection of one that is `broken` breaks however often it is asked, and that of one that is `cut` once.
fn gives_of(word: &str) -> Gives {
    match word {
        "standby" => Gives::Standby,
        "observer" => Gives::Observer,
        "taken" => Gives::Taken,
        "fails" => Gives::Fails,
        "noMemory" => Gives::NoMemory,
        "broken" => Gives::BrokenUntil(6),
        "cut" => Gives::BrokenUntil(1),
        "unreadable" => Gives::Unreadable,
        "fatalStandby" => Gives::FatalStandby,
        "fatal" => Gives::Fatal,
        _ => Gives::Answer,
    }
}

/// `gives WHAT WHAT WHAT`: what each namenode gives from now on.
pub(crate) fn set_gives(namenodes: &mut FakeNamenodes, words: &Words<'_>) {
    namenodes.gives = [gives_of(words[1]), gives_of(words[2]), gives_of(words[3])];
}

/// A write, or a read.
fn ask_of(alloc: Global, write: bool) -> Ask {
    if write {
        Ask::Complete(CompleteAsk {
            src: Text::new(alloc),
            client_name: Text::new(alloc),
            last: None,
            file_id: None,
        })
    } else {
        Ask::GetServerDefaults
    }
}

/// Which namenodes are asked, and the error that the caller has, where there is no answer.
fn tell_ask(
    service: &mut NameServiceProxy,
    namenodes: &mut FakeNamenodes,
    ask: &Ask,
    write: bool,
    said: &mut Said,
)
    requires { IsServiceOf service.old (shown_of namenodes.old) }
{
    let given = service.call(namenodes, ask, write);
    tell_asked(namenodes.asked.as_slice(), said);
    if let Err(error) = &given {
        tell_error(error, said);
    }
    drop(given);
}

/// `read WHAT WHAT WHAT` or `write WHAT WHAT WHAT`: asks the service, while its namenodes, which nobody has asked before, give this.
pub(crate) fn take(
    alloc: Global,
    service: &mut NameServiceProxy,
    namenodes: &mut FakeNamenodes,
    words: &Words<'_>,
    said: &mut Said,
) {
    namenodes.asked.clear();
    set_gives(namenodes, words);
    if !service.is_service_of(namenodes) {
        said.fails("namenodes");
        return;
    }
    let write = words[0] == "write";
    let ask = ask_of(alloc, write);
    tell_ask(service, namenodes, &ask, write, said);
    drop(ask);
}
