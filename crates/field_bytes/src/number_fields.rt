ghost use Rattle.std.specs.Prelude.{◌≡◌, ◌++◌, OnOk, OnErr, IfSome, IfNone};
ghost use Rattle.field_bytes.specs.Fields.{u8_bytes, u16_bytes, u32_bytes, u64_bytes, i64_bytes, IsU8, IsU16, IsU32, IsU64, IsI64, NoneAhead};

use std::alloc::AllocError;

/// Appends one byte; unchanged when out of memory.
pub fn put_u8(to: &mut Vec<u8>, n: u8) -> Result<(), AllocError>
    ensures ok { OnOk result (to.new.items ≡ to.old.items ++ u8_bytes n) }
    ensures err { OnErr result (to.new.items ≡ to.old.items) }
{
    to.push(n)?;
    Ok(())
}

/// Appends two bytes; unchanged when out of memory.
#[tactic(auto, unfolding(crate::specs::Fields::u16_bytes))]
pub fn put_u16(to: &mut Vec<u8>, n: u16) -> Result<(), AllocError>
    ensures ok { OnOk result (to.new.items ≡ to.old.items ++ u16_bytes n) }
    ensures err { OnErr result (to.new.items ≡ to.old.items) }
{
    to.extend_from_slice(&n.to_be_bytes())
}

/// Appends four bytes; unchanged when out of memory.
#[tactic(auto, unfolding(crate::specs::Fields::u32_bytes))]
pub fn put_u32(to: &mut Vec<u8>, n: u32) -> Result<(), AllocError>
    ensures ok { OnOk result (to.new.items ≡ to.old.items ++ u32_bytes n) }
    ensures err { OnErr result (to.new.items ≡ to.old.items) }
{
    to.extend_from_slice(&n.to_be_bytes())
}

/// Appends eight bytes; unchanged when out of memory.
#[tactic(auto, unfolding(crate::specs::Fields::u64_bytes))]
pub fn put_u64(to: &mut Vec<u8>, n: u64) -> Result<(), AllocError>
    ensures ok { OnOk result (to.new.items ≡ to.old.items ++ u64_bytes n) }
    ensures err { OnErr result (to.new.items ≡ to.old.items) }
{
    to.extend_from_slice(&n.to_be_bytes())
}

/// Appends eight bytes; unchanged when out of memory.
#[tactic(auto, unfolding(crate::specs::Fields::i64_bytes))]
pub fn put_i64(to: &mut Vec<u8>, n: i64) -> Result<(), AllocError>
    ensures ok { OnOk result (to.new.items ≡ to.old.items ++ i64_bytes n) }
    ensures err { OnErr result (to.new.items ≡ to.old.items) }
{
    to.extend_from_slice(&n.to_be_bytes())
}

/// The byte that comes first, and what follows it; none where no byte is left.
pub fn take_u8(bytes: &[u8]) -> Option<(u8, &[u8])>
    ensures some { IfSome result (λ got. bytes.now ≡ u8_bytes got.0 ++ got.1.now) }
    ensures range { IfSome result (λ got. IsU8 got.0) }
    ensures none { IfNone result (NoneAhead u8_bytes IsU8 bytes.now) }
{
    let (first, rest) = bytes.split_first()?;
    Some((*first, rest))
}

/// The number in the first two bytes, and what follows them; none where fewer are left.
#[tactic(auto, unfolding(crate::specs::Fields::u16_bytes))]
pub fn take_u16(bytes: &[u8]) -> Option<(u16, &[u8])>
    ensures some { IfSome result (λ got. bytes.now ≡ u16_bytes got.0 ++ got.1.now) }
    ensures range { IfSome result (λ got. IsU16 got.0) }
    ensures none { IfNone result (NoneAhead u16_bytes IsU16 bytes.now) }
{
    let (front, rest) = bytes.split_first_chunk::<2>()?;
    Some((u16::from_be_bytes(*front), rest))
}

/// The number in the first four bytes, and what follows them; none where fewer are left.
#[tactic(auto, unfolding(crate::specs::Fields::u32_bytes))]
pub fn take_u32(bytes: &[u8]) -> Option<(u32, &[u8])>
    ensures some { IfSome result (λ got. bytes.now ≡ u32_bytes got.0 ++ got.1.now) }
    ensures range { IfSome result (λ got. IsU32 got.0) }
    ensures none { IfNone result (NoneAhead u32_bytes IsU32 bytes.now) }
{
    let (front, rest) = bytes.split_first_chunk::<4>()?;
    Some((u32::from_be_bytes(*front), rest))
}

/// The number in the first eight bytes, and what follows them; none where fewer are left.
#[tactic(auto, unfolding(crate::specs::Fields::u64_bytes))]
pub fn take_u64(bytes: &[u8]) -> Option<(u64, &[u8])>
    ensures some { IfSome result (λ got. bytes.now ≡ u64_bytes got.0 ++ got.1.now) }
    ensures range { IfSome result (λ got. IsU64 got.0) }
    ensures none { IfNone result (NoneAhead u64_bytes IsU64 bytes.now) }
{
    let (front, rest) = bytes.split_first_chunk::<8>()?;
    Some((u64::from_be_bytes(*front), rest))
}

/// The number with a sign in the first eight bytes, and what follows them; none where fewer are left.
#[tactic(auto, unfolding(crate::specs::Fields::i64_bytes))]
pub fn take_i64(bytes: &[u8]) -> Option<(i64, &[u8])>
    ensures some { IfSome result (λ got. bytes.now ≡ i64_bytes got.0 ++ got.1.now) }
    ensures range { IfSome result (λ got. IsI64 got.0) }
    ensures none { IfNone result (NoneAhead i64_bytes IsI64 bytes.now) }
{
    let (front, rest) = bytes.split_first_chunk::<8>()?;
    Some((i64::from_be_bytes(*front), rest))
}
