//! What is read and written byte by byte: owned values (text, bytes and lists that contracts see as lists), varints, fields of
//! messages, frames of a stream, packets of a block, and the sums of bytes.
#![tactic(auto)]

mod ack;
mod checksums;
mod crc;
mod field;
mod frame;
mod frame_reader;
mod packet_header;
mod read_packet;
mod values;
mod varint;
mod wire_fault;
mod write_packet;

pub use ack::Ack;
pub use checksums::{ChecksumFault, ChecksumInfo};
pub use crc::{crc32, crc32c, one_byte_changes_the_sum};
pub use field::{
    Field, LAST_FIELD_NUMBER, Value, fields, fields_are_read_again, is_field_number, put_field,
};
pub use frame::{FRAME_LIMIT, context_frame, rpc_frame};
pub use frame_reader::{FrameReader, streams_are_read_in_one_way};
pub use packet_header::PacketHeader;
pub use read_packet::ReadPacket;
pub use values::{Blob, List, NoMemory, Text};
pub use varint::{put_varint, take_varint, varints_are_read_again};
pub use wire_fault::WireFault;
pub use write_packet::{WritePacket, no_packet_begins_another, put_checksums, written_sums_hold};
