// Building a path from its text, byte by byte.
ghost use Rattle.std.specs.Prelude.{◌≡◌, [], ◌∷◌, ◌++◌, IfOk, IsUtf8};
ghost use Rattle.mix_tree.specs.LabelGrammar.{escaped_byte};
ghost use Rattle.path_expr.specs.Form.{joined, repeated, seq, alt};
ghost use Rattle.path_expr.specs.Values.{named, word_form, mark_head};
ghost use Rattle.path_expr.specs.Building.{level, path_in, begin, close, in_quotes, after_atom, after_repeat, step, whole};
ghost use Rattle.path_expr.specs.BuilderState.{Builds, AreUtf8, AreUtf8Now, level_in, outer_in, state_in};

use crate::path::{Node, Path};
use crate::scan::{is_escaped, is_mark_byte, is_name};
use mix_tree::Label;
use std::alloc::{AllocError, Global};

/// The members of a path before the one at hand.
#[derive(Drop)]
pub struct Level {
    /// The whole sequences, each with a bar after it.
    pub sequences: Vec<Path>,
    /// The members of the sequence at hand, each with a dot after it.
    pub members: Vec<Path>,
}

impl Level {
    /// A level with no members yet.
    pub fn new(alloc: Global) -> Level
        ensures { level_in result ≡ level [] [] }
    {
        Level {
            sequences: Vec::new(alloc),
            members: Vec::new(alloc),
        }
    }
}

/// What has been read of the member at hand.
#[derive(Drop)]
pub enum Spot {
    /// Nothing: no byte of the member has come.
    Start,
    /// A name so far.
    Naming(Vec<u8>),
    /// A quoted label so far.
    Quoting(Vec<u8>),
    /// A quoted label up to a backslash.
    Escaping(Vec<u8>),
    /// A path in parentheses or a quoted label, after which a mark may stand.
    PastAtom(Path),
    /// A member with its mark.
    PastRepeat(Path),
}

/// A path that is being built.
#[derive(Drop)]
pub struct Builder {
    /// The members of the path inside the innermost open parenthesis.
    pub here: Level,
    /// The members of the paths around the one at hand, the outermost first.
    pub outer: Vec<Level>,
    /// What has been read of the member at hand.
    pub spot: Spot,
}

// The byte that is meant by one after a backslash.
fn unescaped(byte: u8) -> u8
    ensures { result ≡ escaped_byte byte }
{
    match byte {
        b'n' => b'\n',
        b't' => b'\t',
        _ => byte,
    }
}

// The path of a name, or of `_`.
fn word_path(alloc: Global, bytes: &[u8]) -> Result<Path, AllocError>
    requires { IsUtf8 bytes.now }
    ensures { IfOk result (λ p. p ≡ word_form bytes.now) }
{
    if bytes == b"_".as_slice() {
        return Ok(Path::new(Node::Any));
    }
    Ok(Path::new(Node::Name(Label::of_text(alloc, bytes)?)))
}

// The path of a quoted label.
fn quoted_path(alloc: Global, bytes: &[u8]) -> Result<Path, AllocError>
    requires { IsUtf8 bytes.now }
    ensures { IfOk result (λ p. p ≡ named bytes.now) }
{
    Ok(Path::new(Node::Name(Label::of_text(alloc, bytes)?)))
}

// A sequence, or its member where there is one alone.
fn join_seq(mut members: Vec<Path>, last: Path) -> Result<Path, AllocError>
    ensures { IfOk result (λ p. p ≡ joined seq (members.items ++ last ∷ [])) }
{
    if members.is_empty() {
        return Ok(last);
    }
    members.push(last)?;
    Ok(Path::new(Node::Seq(members)))
}

// A choice, or its member where there is one alone.
fn join_alt(mut members: Vec<Path>, last: Path) -> Result<Path, AllocError>
    ensures { IfOk result (λ p. p ≡ joined alt (members.items ++ last ∷ [])) }
{
    if members.is_empty() {
        return Ok(last);
    }
    members.push(last)?;
    Ok(Path::new(Node::Alt(members)))
}

// The path whose last member is at hand.
fn close_level(level: Level, last: Path) -> Result<Path, AllocError>
    ensures { IfOk result (λ p. p ≡ path_in (level_in level) last) }
{
    let Level { sequences, members } = level;
    let last = join_seq(members, last)?;
    join_alt(sequences, last)
}

// A closing parenthesis after a path's last member; none where no parenthesis is open.
fn build_close(
    here: Level,
    mut outer: Vec<Level>,
    last: Path,
) -> Result<Option<Builder>, AllocError>
    ensures { Builds result (close (outer_in outer) (path_in (level_in here) last)) }
{
    let Some(around) = outer.pop() else {
        return Ok(None);
    };
    let group = close_level(here, last)?;
    Ok(Some(Builder {
        here: around,
        outer,
        spot: Spot::PastAtom(group),
    }))
}

// One more byte after a member with its mark.
fn build_after_repeat(
    alloc: Global,
    here: Level,
    outer: Vec<Level>,
    last: Path,
    byte: u8,
) -> Result<Option<Builder>, AllocError>
    ensures { Builds result (after_repeat (level_in here) (outer_in outer) last byte) }
{
    match byte {
        b'.' => {
            let Level {
                sequences,
                mut members,
            } = here;
            members.push(last)?;
            Ok(Some(Builder {
                here: Level { sequences, members },
                outer,
                spot: Spot::Start,
            }))
        }
        b'|' => {
            let Level {
                mut sequences,
                members,
            } = here;
            sequences.push(join_seq(members, last)?)?;
            Ok(Some(Builder {
                here: Level {
                    sequences,
                    members: Vec::new(alloc),
                },
                outer,
                spot: Spot::Start,
            }))
        }
        b')' => build_close(here, outer, last),
        _ => Ok(None),
    }
}

// An atom with a mark after it.
fn repeat(alloc: Global, atom: Path, byte: u8) -> Result<Path, AllocError>
    ensures { IfOk result (λ p. p ≡ repeated (mark_head byte) atom) }
{
    let atom = Box::new(alloc, atom)?;
    Ok(Path::new(match byte {
        b'*' => Node::Star(atom),
        b'+' => Node::Plus(atom),
        _ => Node::Opt(atom),
    }))
}

// One more byte after an atom.
fn build_after_atom(
    alloc: Global,
    here: Level,
    outer: Vec<Level>,
    atom: Path,
    byte: u8,
) -> Result<Option<Builder>, AllocError>
    ensures { Builds result (after_atom (level_in here) (outer_in outer) atom byte) }
{
    if is_mark_byte(byte) {
        let spot = Spot::PastRepeat(repeat(alloc, atom, byte)?);
        return Ok(Some(Builder { here, outer, spot }));
    }
    build_after_repeat(alloc, here, outer, atom, byte)
}

// The first byte of a member.
fn build_start(
    alloc: Global,
    here: Level,
    mut outer: Vec<Level>,
    byte: u8,
) -> Result<Option<Builder>, AllocError>
    ensures { Builds result (begin (level_in here) (outer_in outer) byte) }
{
    if is_name(byte) {
        let mut name = Vec::new(alloc);
        name.push(byte)?;
        return Ok(Some(Builder {
            here,
            outer,
            spot: Spot::Naming(name),
        }));
    }
    match byte {
        b'"' => Ok(Some(Builder {
            here,
            outer,
            spot: Spot::Quoting(Vec::new(alloc)),
        })),
        b'(' => {
            outer.push(here)?;
            Ok(Some(Builder {
                here: Level::new(alloc),
                outer,
                spot: Spot::Start,
            }))
        }
        _ => Ok(None),
    }
}

// One more byte inside a quoted label.
fn build_quoting(
    alloc: Global,
    here: Level,
    outer: Vec<Level>,
    mut label: Vec<u8>,
    byte: u8,
) -> Result<Option<Builder>, AllocError>
    requires { byte ≡ 34 → IsUtf8 label.items }
    ensures { Builds result (in_quotes (level_in here) (outer_in outer) label.items byte) }
{
    let spot = match byte {
        b'"' => Spot::PastAtom(quoted_path(alloc, &label)?),
        b'\\' => Spot::Escaping(label),
        _ => {
            label.push(byte)?;
            Spot::Quoting(label)
        }
    };
    Ok(Some(Builder { here, outer, spot }))
}

/// The builder after one more byte; `None` where no path's text goes on with it.
pub fn build_byte(alloc: Global, builder: Builder, byte: u8) -> Result<Option<Builder>, AllocError>
    requires { AreUtf8 builder.spot byte }
    ensures { Builds result (step (state_in builder) byte) }
{
    let Builder { here, outer, spot } = builder;
    match spot {
        Spot::Start => build_start(alloc, here, outer, byte),
        Spot::Naming(mut name) if is_name(byte) => {
            name.push(byte)?;
            Ok(Some(Builder {
                here,
                outer,
                spot: Spot::Naming(name),
            }))
        }
        Spot::Naming(name) => {
            let atom = word_path(alloc, &name)?;
            build_after_atom(alloc, here, outer, atom, byte)
        }
        Spot::Quoting(label) => build_quoting(alloc, here, outer, label, byte),
        Spot::Escaping(mut label) if is_escaped(byte) => {
            label.push(unescaped(byte))?;
            Ok(Some(Builder {
                here,
                outer,
                spot: Spot::Quoting(label),
            }))
        }
        Spot::Escaping(_) => Ok(None),
        Spot::PastAtom(atom) => build_after_atom(alloc, here, outer, atom, byte),
        Spot::PastRepeat(last) => build_after_repeat(alloc, here, outer, last, byte),
    }
}

/// The path that has been built; `None` where no path's text ends there.
pub fn build_end(alloc: Global, builder: Builder) -> Result<Option<Path>, AllocError>
    requires { AreUtf8Now builder.spot }
    ensures { IfOk result (λ p. p ≡ whole (state_in builder)) }
{
    let Builder { here, outer, spot } = builder;
    if !outer.is_empty() {
        return Ok(None);
    }
    let last = match spot {
        Spot::Naming(name) => word_path(alloc, &name)?,
        Spot::PastAtom(last) | Spot::PastRepeat(last) => last,
        Spot::Start | Spot::Quoting(_) | Spot::Escaping(_) => return Ok(None),
    };
    Ok(Some(close_level(here, last)?))
}
