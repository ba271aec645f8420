//! Scheme files: the check of any bytes, and the scheme that a file that passed it says.
#![tactic(auto)]

mod checks;
mod fault;
mod file;
mod fit;
mod reader;

pub use checks::check;
pub use fault::{
    BlockCause, BlockFault, BlockLayer, FaultNumbers, FileCause, FileFault, FileLayer, RecordCause,
    RecordFault,
};
pub use file::SchemeFile;
