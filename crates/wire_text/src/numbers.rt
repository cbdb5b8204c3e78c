// Numbers as bytes, the highest first.
ghost use Rattle.std.specs.Prelude.{◌≡◌, ◌++◌, ◌<◌, ◌^◌, OnOk, MatchOption, IfSome, length};
ghost use Rattle.wire_text.specs.Bytes.{IsHole, hole_bytes, u32_bytes, u64_bytes, u128_bytes, words_bytes};

use lxp_core::HoleId;
use std::alloc::AllocError;

/// Writes a number of 32 bits after what `out` holds.
#[tactic(auto, unfolding(crate::specs::Bytes::u32_bytes))]
pub fn push_u32(out: &mut Vec<u8>, n: u32) -> Result<(), AllocError>
    ensures { OnOk result (out.new.items ≡ out.old.items ++ u32_bytes n) }
{
    out.extend_from_slice(&n.to_be_bytes())?;
    Ok(())
}

/// Writes a number of 64 bits after what `out` holds.
#[tactic(auto, unfolding(crate::specs::Bytes::u64_bytes))]
pub fn push_u64(out: &mut Vec<u8>, n: u64) -> Result<(), AllocError>
    ensures { OnOk result (out.new.items ≡ out.old.items ++ u64_bytes n) }
{
    out.extend_from_slice(&n.to_be_bytes())?;
    Ok(())
}

/// Writes a number of 128 bits after what `out` holds.
pub fn push_u128(out: &mut Vec<u8>, n: u128) -> Result<(), AllocError>
    ensures { OnOk result (out.new.items ≡ out.old.items ++ u128_bytes n) }
{
    push_u64(out, (n / (1 << 64)) as u64)?;
    push_u64(out, (n % (1 << 64)) as u64)
}

/// Writes a hole's words after what `out` holds.
pub fn push_words(out: &mut Vec<u8>, hole: HoleId) -> Result<(), AllocError>
    ensures words { OnOk result (out.new.items ≡ out.old.items ++ words_bytes hole) }
    ensures hole { OnOk result (IsHole hole) }
{
    let [first, second, third] = hole.words;
    push_u64(out, first)?;
    push_u64(out, second)?;
    push_u64(out, third)
}

/// The number of four bytes, and what follows it; `None` where there are fewer.
pub fn u32_at(bytes: &[u8]) -> Option<(u32, &[u8])>
    ensures number { MatchOption result (length bytes.now < 4) (λ p. bytes.now ≡ u32_bytes p.0 ++ p.1.now) }
    ensures fits { IfSome result (λ p. p.0 < 2 ^ 32) }
{
    let (prefix, rest) = bytes.split_first_chunk()?;
    Some((u32::from_be_bytes(*prefix), rest))
}

/// The number of eight bytes, and what follows it; `None` where there are fewer.
pub fn u64_at(bytes: &[u8]) -> Option<(u64, &[u8])>
    ensures { MatchOption result (length bytes.now < 8) (λ p. bytes.now ≡ u64_bytes p.0 ++ p.1.now) }
{
    let (prefix, rest) = bytes.split_first_chunk()?;
    Some((u64::from_be_bytes(*prefix), rest))
}

/// The number of sixteen bytes, and what follows it; `None` where there are fewer.
pub fn u128_at(bytes: &[u8]) -> Option<(u128, &[u8])>
    ensures { MatchOption result (length bytes.now < 16) (λ p. bytes.now ≡ u128_bytes p.0 ++ p.1.now) }
{
    let (high, rest) = u64_at(bytes)?;
    let (low, rest) = u64_at(rest)?;
    Some((high as u128 * (1 << 64) + low as u128, rest))
}

/// A hole's words, and what follows them; `None` where there are fewer bytes.
pub fn words_at(bytes: &[u8]) -> Option<(HoleId, &[u8])>
    ensures words { MatchOption result (length bytes.now < 24) (λ p. bytes.now ≡ words_bytes p.0 ++ p.1.now) }
    ensures hole { IfSome result (λ p. IsHole p.0) }
{
    let (first, rest) = u64_at(bytes)?;
    let (second, rest) = u64_at(rest)?;
    let (third, rest) = u64_at(rest)?;
    let words = [first, second, third];
    Some((HoleId { words }, rest))
}
