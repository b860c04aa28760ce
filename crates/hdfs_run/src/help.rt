//! What the program says of itself.

pub(crate) const VERSION: &str = "hdfs_run 0.1.0\n";

pub(crate) const HELP: &str = "\
Runs a script of file commands over an HDFS cluster in memory, with one namenode and three datanodes, if it says nothing else.
It reads the script from standard input and writes a line for each reply to standard output. What goes wrong is said in a
line on standard error: which line of the script and why; or which command, its path, the error, what has failed and what to do.

Usage: hdfs_run session | relay PACKETS WINDOW | --explain NAME | --help | --version

`relay` sends 1 to 10000 packets of a byte and a last one to a node in memory, by two threads over one pipeline of which at most
WINDOW packets, 1 to 1000, wait for their acknowledgement. It prints how many were sent, and how it ended.

`--explain NAME` says of an error, as DataTransferError or AllNodes, when it comes, what is so of the file afterwards and what to
do next. Without a name, or with one that isn't there, all names are listed on standard error.

A script has lines for settings, then for directories, files and short replicas to load, then for faults, and then one for each command to run:

  set user NAME                                     the user in whose home relative paths stand
  set namenodes NAMENODES                           how many namenodes there are
  set active ACTIVE                                 which of them is active, counted from 0
  set nodes NODES                                   how many datanodes there are
  set block BLOCK_SIZE                              the cluster's block size
  set chunk CHUNK                                   how many bytes have one checksum
  set packet PACKET                                 how many bytes a packet has at most
  set replication REPLICATION                       the cluster's replication
  set encrypt ENCRYPT                               true: bytes are to be encrypted on their way, so none is moved; else false
  set rebuilds REBUILDS                             how often the pipeline of a block is rebuilt at most
  set window WINDOW                                 how many packets of a block wait for their acknowledgement at most
  set policy POLICY                                 when a datanode is added in the place of one that failed: POLICY is
                                                    DEFAULT, NEVER, ALWAYS or DISABLE
  set besteffort BEST_EFFORT                        true: a write goes on where none could be added; else false
  dir PATH                                          a directory
  file PATH PERMISSION REPLICATION BLOCK_SIZE HEX   a file, its permission in octal digits and its bytes
  short PATH BLOCK NODE LENGTH                      datanode NODE holds the first LENGTH bytes alone of a file's block BLOCK,
                                                    both counted from 0
  fault ask NAMENODE NTH KIND                       namenode NAMENODE fails in the NTH ask that it is asked: KIND is lost, late,
                                                    false or fatal, or `exception` and a Java class
  fault link NTH KIND                               the NTH pipeline fails: KIND is broken, refused or badack
  fault ack NODE NTH                                datanode NODE has failed in the NTH acknowledgement that tells of it
  fault send NODE NTH                               the NTH packet to a pipeline that begins at NODE breaks its connection
  fault read NODE NTH KIND                          datanode NODE fails in its NTH packet: KIND is broken, damaged or gap;
                                                    or it refuses the NTH read that is opened on it: KIND is refused
  do create PATH PERMISSION REPLICATION BLOCK_SIZE OVERWRITE PARENTS
                                                    creates a file and opens it; - for the cluster's numbers
  do append PATH                                    opens a file to be gone on with
  do write PATH HEX                                 puts bytes behind those of an open file
  do close PATH                                     closes an open file
  do read PATH OFFSET LENGTH                        reads a part of a file
  do mkdirs PATH PERM PARENT                        makes a directory
  do delete PATH RECURSIVE                          lets go of what stands at a path, of a directory with all below it
  do info PATH                                      tells what stands at a path
  do list PATH RECURSIVE LIMIT                      lists at most so many entries of a directory
  # ...                                             a comment; an empty line is one too

Bytes are pairs of lower-case hexadecimal digits, or `-` for none.

Status  Meaning
0       every reply was written, or a relay ended with success
1       `bad N` was written: line N of the script is the first bad one, or 0 where the words are refused
2       a command failed: the replies before it were written, and a line `fault NUMBER NAME`; or a relay ended otherwise
3       there was no memory; nothing was written
4       standard input failed; nothing was written
5       standard output failed

Example: the script

  do create /a 644 1 8 false true
  do write /a 0001020304050607
  do close /a
  do read /a 2 4

prints

  ok created
  ok written 8
  ok closed
  ok bytes 02030405
";
