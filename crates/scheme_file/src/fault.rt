//! What is wrong with a scheme file, and where. Each layer carries the fault below whole.
ghost use Rattle.std.specs.Prelude.{◌≡◌};
ghost use Rattle.model.specs.declared.refusal.Refusal.TheVariants.{FaultyFile};
ghost use Rattle.scheme_file.specs.Faults.{numbers, numbered, record_numbered, block_numbered, block_fault, file_fault};

use model::Refusal;
use std::{error, fmt};
use thiserror::Error;

/// A fault of the file as a whole. It is displayed as the reason, for people, and so is that of a block and of a record.
#[derive(Clone, Copy, Debug, PartialEq, Eq, Error)]
pub enum FileCause {
    /// The length is not that of 1 to 128 blocks.
    #[error("its length is not that of 1 to 128 blocks of 512 bytes")]
    Length = 1,
}

/// A fault of a block as a whole.
#[derive(Clone, Copy, Debug, PartialEq, Eq, Error)]
pub enum BlockCause {
    /// The check does not match the block's bytes.
    #[error("its check does not match its bytes")]
    Check = 2,
    /// The number or the mark of the last block is wrong.
    #[error("its number is not its place, or its last mark is wrong")]
    Number = 3,
    /// There are more than 15 records, or a spare byte is not zero.
    #[error("it says more than 15 records, or a spare byte is not zero")]
    Count = 4,
}

/// A fault of a record.
#[derive(Clone, Copy, Debug, PartialEq, Eq, Error)]
pub enum RecordCause {
    /// The tag is unknown, or lower than one before.
    #[error("its tag is unknown, or lower than the tag before")]
    Tag = 5,
    /// A field or mask is not as the tag says or not declared, or an unused byte is not zero.
    #[error("a field is not as its tag says or not declared, or an unused byte is not zero")]
    Field = 6,
    /// A filter, demand or rule has the key of one before.
    #[error("another record has the same key")]
    Repeated = 7,
    /// A copyable mask goes beyond the plain one.
    #[error("a right is copyable and not plain")]
    Beyond = 8,
    /// An object is given tickets when it is created.
    #[error("an object gets tickets")]
    Gifted = 9,
}

/// A record's fault: in which block, which record, and why.
#[derive(Clone, Copy, Debug, PartialEq, Eq, Error)]
#[error("record {number} of block {block} of the scheme file is faulty, since {cause}")]
pub struct RecordFault {
    pub block: u8,
    pub number: u8,
    pub cause: RecordCause,
}

/// Which layer of a block is at fault: the block itself, or one of its records.
#[derive(Clone, Copy, Debug, PartialEq, Eq)]
pub enum BlockLayer {
    Block(BlockCause),
    Record(RecordFault),
}

/// A block's fault: which block, and what there.
#[derive(Clone, Copy, Debug, PartialEq, Eq)]
pub struct BlockFault {
    pub block: u8,
    pub layer: BlockLayer,
}

// Not derived: a derived message of a struct cannot go by the layer.
impl fmt::Display for BlockFault {
    fn fmt<W: fmt::Write>(&self, f: &mut fmt::Formatter<W>) -> fmt::Result {
        match self.layer {
            BlockLayer::Block(cause) => {
                let block = self.block;
                write!(
                    f,
                    "block {block} of the scheme file is faulty, since {cause}"
                )
            }
            BlockLayer::Record(fault) => write!(f, "{fault}"),
        }
    }
}

impl error::Error for BlockFault {}

/// Which layer of a file is at fault: the file itself, or one of its blocks.
#[derive(Clone, Copy, Debug, PartialEq, Eq, Error)]
pub enum FileLayer {
    #[error("the scheme file is faulty, since {0}")]
    File(FileCause),
    #[error(transparent)]
    Block(BlockFault),
}

/// A file's fault.
#[derive(Clone, Copy, Debug, PartialEq, Eq, Error)]
#[error("{layer}")]
pub struct FileFault {
    pub layer: FileLayer,
}

// Not derived: a derived conversion does not say what it gives.
impl From<RecordFault> for BlockFault {
    ghost from_gives = { λ x y. y ≡ block_fault x };

    fn from(value: RecordFault) -> BlockFault {
        BlockFault {
            block: value.block,
            layer: BlockLayer::Record(value),
        }
    }
}

impl From<BlockFault> for FileFault {
    ghost from_gives = { λ x y. y ≡ file_fault x };

    fn from(value: BlockFault) -> FileFault {
        FileFault {
            layer: FileLayer::Block(value),
        }
    }
}

/// Reading a file is refused by one refusal, whatever the fault.
impl From<FileFault> for Refusal {
    ghost from_gives = { λ x y. y ≡ FaultyFile };

    fn from(value: FileFault) -> Refusal {
        Refusal::FaultyFile
    }
}

// The layer's number is written where each layer's fault is turned into numbers: an enum of layers would be named nowhere else.
/// A fault by its numbers: the layer (1 file, 2 block, 3 record), the cause, the block and the record; a place that a layer
/// does not have is 0.
#[derive(Clone, Copy, Debug, PartialEq, Eq)]
pub struct FaultNumbers {
    pub layer: u8,
    pub cause: u8,
    pub block: u8,
    pub place: u8,
}

impl From<RecordFault> for FaultNumbers {
    ghost from_gives = { λ fault told. numbered told ≡ record_numbered fault };

    fn from(value: RecordFault) -> FaultNumbers {
        let RecordFault {
            block,
            number,
            cause,
        } = value;
        FaultNumbers {
            layer: 3,
            cause: cause as u8,
            block,
            place: number,
        }
    }
}

impl From<BlockFault> for FaultNumbers {
    ghost from_gives = { λ fault told. numbered told ≡ block_numbered fault };

    fn from(value: BlockFault) -> FaultNumbers {
        let BlockFault { block, layer } = value;
        match layer {
            BlockLayer::Block(cause) => FaultNumbers {
                layer: 2,
                cause: cause as u8,
                block,
                place: 0,
            },
            BlockLayer::Record(fault) => fault.into(),
        }
    }
}

impl From<FileFault> for FaultNumbers {
    ghost from_gives = { λ fault told. numbered told ≡ numbers fault };

    fn from(value: FileFault) -> FaultNumbers {
        match value.layer {
            FileLayer::File(cause) => FaultNumbers {
                layer: 1,
                cause: cause as u8,
                block: 0,
                place: 0,
            },
            FileLayer::Block(fault) => fault.into(),
        }
    }
}

impl FileFault {
    /// The fault's numbers.
    pub fn numbers(self) -> FaultNumbers
        ensures { numbered result ≡ numbers self }
    {
        self.into()
    }
}
