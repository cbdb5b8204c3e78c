// Reading an identifier byte by byte.
ghost use Rattle.std.specs.Prelude.{◌≡◌, ◌==◌, [], cond, IfOk, Some, None, option_map};
ghost use Rattle.node_text.specs.Machine.{first, with_digit, with_level, with_place, begin, after_level, after_number, step, whole_number, whole};
ghost use Rattle.node_text.specs.Machine as machine;
ghost use Rattle.node_text.specs.Node.{node};
ghost use Rattle.node_text.specs.ReaderState.{part_in, state_in, Gives};

use crate::data::{Level, NodeData};
use mix_tree::Place;
use std::alloc::{AllocError, Global};

/// What stands before a number: whole levels; in the parentheses of a level, the number of its piece, whole places, and
/// numbers of the place at hand; after the levels numbers of the place below.
#[derive(Drop)]
pub enum Part {
    Piece(Vec<Level>),
    Tuple {
        levels: Vec<Level>,
        piece: u64,
        places: Vec<Place>,
        steps: Vec<u64>,
    },
    Inside {
        levels: Vec<Level>,
        steps: Vec<u64>,
    },
}

/// What has been read: the text of the root; whole levels and one more with its parentheses; a number so far, or none of it.
#[derive(Drop)]
pub enum Reader {
    Root,
    Closed {
        levels: Vec<Level>,
        piece: u64,
        places: Vec<Place>,
    },
    At(Part, Option<u64>),
}

// The number with one more byte; `None` where no number goes on so.
fn more_digits(number: Option<u64>, byte: u8) -> Option<u64>
    ensures { result ≡ with_digit number byte }
{
    if !matches!(byte, b'0'..=b'9') {
        return None;
    }
    let digit = u64::from(byte - b'0');
    match number {
        None => Some(digit),
        Some(0) => None,
        Some(number) => number.checked_mul(10)?.checked_add(digit),
    }
}

// Whether nothing was read.
fn is_start(part: &Part) -> bool
    ensures { result ≡ machine.is_start (part_in part.now) }
{
    match part {
        Part::Piece(levels) => levels.is_empty(),
        Part::Tuple { .. } | Part::Inside { .. } => false,
    }
}

// A byte where a number must begin, which is no digit.
fn read_begin(part: &Part, byte: u8) -> Option<Reader>
    ensures { option_map state_in result ≡ begin (part_in part.now) byte }
{
    if is_start(part) && byte == b'-' {
        Some(Reader::Root)
    } else {
        None
    }
}

// A byte that ends a level: more levels follow, or the place below.
fn read_after_level(
    alloc: Global,
    mut levels: Vec<Level>,
    piece: u64,
    places: Vec<Place>,
    byte: u8,
) -> Result<Option<Reader>, AllocError>
    ensures { Gives result (after_level levels.items piece places.items byte) }
{
    let part = match byte {
        b'/' => {
            levels.push(Level {
                piece,
                tuple: places,
            })?;
            Part::Piece(levels)
        }
        b':' => {
            levels.push(Level {
                piece,
                tuple: places,
            })?;
            Part::Inside {
                levels,
                steps: Vec::new(alloc),
            }
        }
        _ => return Ok(None),
    };
    Ok(Some(Reader::At(part, None)))
}

// A byte that ends the number of a piece.
fn read_after_piece(
    alloc: Global,
    levels: Vec<Level>,
    piece: u64,
    byte: u8,
) -> Result<Option<Reader>, AllocError>
    ensures { Gives result (after_number (machine.piece levels.items) piece byte) }
{
    if byte != b'(' {
        return read_after_level(alloc, levels, piece, Vec::new(alloc), byte);
    }
    let part = Part::Tuple {
        levels,
        piece,
        places: Vec::new(alloc),
        steps: Vec::new(alloc),
    };
    Ok(Some(Reader::At(part, None)))
}

// A byte that ends a number of a place in parentheses.
fn read_after_step(
    alloc: Global,
    levels: Vec<Level>,
    piece: u64,
    mut places: Vec<Place>,
    mut steps: Vec<u64>,
    byte: u8,
) -> Result<Option<Reader>, AllocError>
    ensures { Gives result (cond (byte == 46) (Some (machine.at (machine.tuple levels.items piece places.items steps.items) None))
        (cond (byte == 44) (Some (machine.at (machine.tuple levels.items piece (with_place places.items steps.items) []) None))
        (cond (byte == 41) (Some (machine.closed levels.items piece (with_place places.items steps.items))) None))) }
{
    match byte {
        b'.' => {}
        b',' => {
            places.push(Place::new(steps))?;
            steps = Vec::new(alloc);
        }
        b')' => {
            places.push(Place::new(steps))?;
            return Ok(Some(Reader::Closed {
                levels,
                piece,
                places,
            }));
        }
        _ => return Ok(None),
    }
    let part = Part::Tuple {
        levels,
        piece,
        places,
        steps,
    };
    Ok(Some(Reader::At(part, None)))
}

// A byte that ends a number.
fn read_after_number(
    alloc: Global,
    part: Part,
    number: u64,
    byte: u8,
) -> Result<Option<Reader>, AllocError>
    ensures { Gives result (after_number (part_in part) number byte) }
{
    match part {
        Part::Piece(levels) => read_after_piece(alloc, levels, number, byte),
        Part::Tuple {
            levels,
            piece,
            places,
            mut steps,
        } => {
            steps.push(number)?;
            read_after_step(alloc, levels, piece, places, steps, byte)
        }
        Part::Inside { levels, mut steps } => {
            if byte != b'.' {
                return Ok(None);
            }
            steps.push(number)?;
            Ok(Some(Reader::At(Part::Inside { levels, steps }, None)))
        }
    }
}

// Levels and one more after them, with no place below.
fn levels_alone(
    alloc: Global,
    mut levels: Vec<Level>,
    piece: u64,
    tuple: Vec<Place>,
) -> Result<NodeData, AllocError>
    ensures { IfOk result (λ n. n ≡ node (with_level levels.items piece tuple.items) []) }
{
    levels.push(Level { piece, tuple })?;
    Ok(NodeData {
        levels,
        inside: Place::new(Vec::new(alloc)),
    })
}

// What has been read, where the text ends with a number.
fn finish_number(alloc: Global, part: Part, number: u64) -> Result<Option<NodeData>, AllocError>
    ensures { IfOk result (λ n. n ≡ whole_number (part_in part) number) }
{
    match part {
        Part::Piece(levels) => Ok(Some(levels_alone(alloc, levels, number, Vec::new(alloc))?)),
        Part::Tuple { .. } => Ok(None),
        Part::Inside { levels, mut steps } => {
            steps.push(number)?;
            Ok(Some(NodeData {
                levels,
                inside: Place::new(steps),
            }))
        }
    }
}

impl Reader {
    /// A reader that has read nothing.
    pub fn new(alloc: Global) -> Reader
        ensures { state_in result ≡ first }
    {
        Reader::At(Part::Piece(Vec::new(alloc)), None)
    }

    /// The reader after one more byte; `None` where no identifier goes on so.
    pub fn take(self, alloc: Global, byte: u8) -> Result<Option<Reader>, AllocError>
        ensures { Gives result (step (state_in self) byte) }
    {
        match self {
            Reader::Root => Ok(None),
            Reader::Closed {
                levels,
                piece,
                places,
            } => read_after_level(alloc, levels, piece, places, byte),
            Reader::At(part, number) => match (more_digits(number, byte), number) {
                (Some(more), _) => Ok(Some(Reader::At(part, Some(more)))),
                (None, None) => Ok(read_begin(&part, byte)),
                (None, Some(number)) => read_after_number(alloc, part, number, byte),
            },
        }
    }

    /// What has been read, at the end of the text; `None` where more must come.
    pub fn finish(self, alloc: Global) -> Result<Option<NodeData>, AllocError>
        ensures { IfOk result (λ n. n ≡ whole (state_in self)) }
    {
        match self {
            Reader::Root => Ok(Some(NodeData {
                levels: Vec::new(alloc),
                inside: Place::new(Vec::new(alloc)),
            })),
            Reader::Closed {
                levels,
                piece,
                places,
            } => Ok(Some(levels_alone(alloc, levels, piece, places)?)),
            Reader::At(part, number) => match number {
                Some(number) => finish_number(alloc, part, number),
                None => Ok(None),
            },
        }
    }
}
