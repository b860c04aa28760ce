//! What can be wrong with a line of a script, in words for the person who wrote it.
use std::error::Error;
use std::fmt;

/// Why a line of a script is bad: which of its words is wrong, counted from 0, and why. The word behind the last one is missing.
#[derive(Clone, Copy, Debug, PartialEq, Eq)]
pub struct Wrong {
    pub word: usize,
    pub why: Why,
}

/// What is wrong with a word, or with a line. The words in capitals are those of the line's form.
#[derive(Clone, Copy, Debug, PartialEq, Eq)]
pub enum Why {
    NotAscii,
    CarriageReturn,
    Kind,
    SetWords,
    DirWords,
    FileWords,
    ShortWords,
    FaultWords,
    AskWords,
    LinkWords,
    AckWords,
    SendWords,
    ReadFaultWords,
    CommandWords,
    CreateWords,
    AppendWords,
    WriteWords,
    CloseWords,
    ReadWords,
    MkdirsWords,
    DeleteWords,
    InfoWords,
    ListWords,
    User,
    Namenodes,
    Active,
    Nodes,
    Chunk,
    Packet,
    Encrypt,
    Rebuilds,
    Window,
    Policy,
    BestEffort,
    Path,
    Unprintable,
    Permission,
    Replication,
    BlockSize,
    PermissionDigits,
    GivenReplication,
    GivenBlockSize,
    Overwrite,
    Parent,
    Recursive,
    Limit,
    Hex,
    Block,
    Node,
    Namenode,
    Nth,
    AskKind,
    Class,
    LinkKind,
    ReadKind,
    Offset,
    Length,
    Order,
    TooLong,
    HeldStore,
    Place,
    Replica,
}

impl Why {
    /// What is wrong, in words.
    fn text(self) -> &'static str {
        match self {
            Why::NotAscii => "a byte that isn't ASCII",
            Why::CarriageReturn => "ends with a carriage return, where a newline alone ends a line",
            Why::Kind => "begins with none of `set`, `dir`, `file`, `short`, `fault`, `do` and `#`",
            Why::SetWords =>
                "not `set SETTING VALUE`, with one space between words, where SETTING is `user`, `namenodes`, `active`, `nodes`, `block`, `chunk`, `packet`, `replication`, `encrypt`, `rebuilds`, `window`, `policy` or `besteffort`",
            Why::DirWords => "not `dir PATH`, with one space between words",
            Why::FileWords =>
                "not `file PATH PERMISSION REPLICATION BLOCK_SIZE HEX`, with one space between words",
            Why::ShortWords => "not `short PATH BLOCK NODE LENGTH`, with one space between words",
            Why::FaultWords =>
                "begins with none of `fault ask`, `fault link`, `fault ack`, `fault send` and `fault read`",
            Why::AskWords =>
                "neither `fault ask NAMENODE NTH KIND` nor `fault ask NAMENODE NTH exception CLASS`, with one space between words",
            Why::LinkWords => "not `fault link NTH KIND`, with one space between words",
            Why::AckWords => "not `fault ack NODE NTH`, with one space between words",
            Why::SendWords => "not `fault send NODE NTH`, with one space between words",
            Why::ReadFaultWords => "not `fault read NODE NTH KIND`, with one space between words",
            Why::CommandWords =>
                "begins with none of `do create`, `do append`, `do write`, `do close`, `do read`, `do mkdirs`, `do delete`, `do info` and `do list`",
            Why::CreateWords =>
                "not `do create PATH PERMISSION REPLICATION BLOCK_SIZE OVERWRITE PARENT`, with one space between words",
            Why::AppendWords => "not `do append PATH`, with one space between words",
            Why::WriteWords => "not `do write PATH HEX`, with one space between words",
            Why::CloseWords => "not `do close PATH`, with one space between words",
            Why::ReadWords => "not `do read PATH OFFSET LENGTH`, with one space between words",
            Why::MkdirsWords =>
                "not `do mkdirs PATH PERMISSION PARENT`, with one space between words",
            Why::DeleteWords => "not `do delete PATH RECURSIVE`, with one space between words",
            Why::InfoWords => "not `do info PATH`, with one space between words",
            Why::ListWords => "not `do list PATH RECURSIVE LIMIT`, with one space between words",
            Why::User => "NAME isn't one or more letters and digits",
            Why::Namenodes =>
                "NAMENODES isn't a number from 1 to 16, or isn't above the number of the active namenode",
            Why::Active => "ACTIVE isn't the number of a namenode, which are counted from 0",
            Why::Nodes => "NODES isn't a number from 1 to 64",
            Why::Chunk => "CHUNK isn't a number of bytes from 1 to 1073741824",
            Why::Packet => "PACKET isn't a number of bytes from 0 to 2147483647",
            Why::Encrypt => "ENCRYPT isn't `true` or `false`",
            Why::Rebuilds => "REBUILDS isn't a number from 1 to 1000",
            Why::Window => "WINDOW isn't a number of packets from 1 to 1000",
            Why::Policy => "POLICY isn't `DEFAULT`, `NEVER`, `ALWAYS` or `DISABLE`",
            Why::BestEffort => "BEST_EFFORT isn't `true` or `false`",
            Why::Path => "PATH isn't absolute, or has a component that is empty, `.` or `..`",
            Why::Unprintable => "PATH is empty, or has a byte that isn't printable",
            Why::Permission => "PERMISSION isn't a number from 0 to 7777 in octal digits",
            Why::Replication => "REPLICATION isn't a number from 1 to 65535",
            Why::BlockSize => "BLOCK_SIZE isn't a number of bytes from 1 to 9223372036854775807",
            Why::PermissionDigits =>
                "PERMISSION isn't a number from 0 to 37777777777 in octal digits",
            Why::GivenReplication => "REPLICATION isn't `-` or a number from 0 to 4294967295",
            Why::GivenBlockSize =>
                "BLOCK_SIZE isn't `-` or a number from 0 to 18446744073709551615",
            Why::Overwrite => "OVERWRITE isn't `true` or `false`",
            Why::Parent => "PARENT isn't `true` or `false`",
            Why::Recursive => "RECURSIVE isn't `true` or `false`",
            Why::Limit => "LIMIT isn't a number from 0 to 18446744073709551615",
            Why::Hex => "HEX isn't `-` or pairs of lower-case hexadecimal digits",
            Why::Block => "BLOCK isn't a number from 0 to 4294967295",
            Why::Node => "NODE isn't a number from 0 to 4294967295",
            Why::Namenode => "NAMENODE isn't a number from 0 to 4294967295",
            Why::Nth => "NTH isn't a number from 1 to 18446744073709551615",
            Why::AskKind => "KIND isn't `lost`, `late`, `false`, `fatal` or `exception CLASS`",
            Why::Class => "CLASS is empty, or has a byte that isn't printable",
            Why::LinkKind => "KIND isn't `broken`, `refused` or `badack`",
            Why::ReadKind => "KIND isn't `broken`, `damaged`, `gap` or `refused`",
            Why::Offset => "OFFSET isn't a number from 0 to 18446744073709551615",
            Why::Length => "LENGTH isn't a number from 0 to 18446744073709551615",
            Why::Order =>
                "out of order, since settings come first, then directories, files and short replicas, then faults, then commands",
            Why::TooLong => "the script has more than 16777216 bytes",
            Why::HeldStore =>
                "the store isn't fresh, so it takes no line with a setting, a directory, a file or a short replica",
            Why::Place => "something stands at PATH already, or its parent is no directory",
            Why::Replica =>
                "there is no such replica, it is shorter already, or none would be whole",
        }
    }
}

impl fmt::Display for Why {
    fn fmt<W: fmt::Write>(&self, f: &mut fmt::Formatter<W>) -> fmt::Result {
        f.write_str(self.text())
    }
}

impl Error for Why {}
