//! A client of a file system, over any cluster: paths, mounts, the calls about what stands at a path, and files that are read.
#![tactic(auto)]

mod acl_messages;
mod acls;
mod attributes;
mod buffers;
mod build_error;
mod builder;
mod client;
mod constructors;
mod errors;
mod file_lease;
mod file_reader;
mod globbing;
mod leasing;
mod list_iterator;
mod listing;
mod making;
mod mounting;
mod opening;
mod paths;
mod places;
mod range_stream;
mod reading;
mod service_plan;
mod status;
mod writing;

pub use build_error::BuildError;
pub use builder::ClientBuilder;
pub use client::Client;
pub use errors::ClientError;
pub use file_reader::FileReader;
pub use list_iterator::{DirListingIterator, ListStatusIterator};
pub use range_stream::RangeStream;
pub use status::FileStatus;
pub use writing::FileWriter;
