ghost use Rattle.std.specs.Prelude.{◌≡◌, ◌<◌, ◌≤◌, ◌^◌, ◌+◌, ◌-◌, ◌++◌, length, take, drop, min, replicate, vec_capacity, IsOk, OnOk, OnErr};
ghost use Rattle.disk_model.specs.Disk.{Torn, Holds};
ghost use Rattle.disk_model.specs.Writes.{written};

use std::alloc::AllocError;

// Copies the bytes at this place, as far as they and the slice go.
pub fn copy_from(bytes: &[u8], at: usize, into: &mut [u8]) -> usize
    ensures value { result ≡ min (length into.old) (length bytes.now - at) }
    ensures copied { into.new ≡ take result (drop at bytes.now) ++ drop result into.old }
{
    if at >= bytes.len() {
        return 0;
    }
    let rest = &bytes[at..];
    let n = into.len().min(rest.len());
    into[..n].copy_from_slice(&rest[..n]);
    n
}

// Writes bytes over the old ones and past the end. It fails only if it would have to grow past the capacity.
pub fn overwrite(content: &mut Vec<u8>, at: usize, bytes: &[u8]) -> Result<(), AllocError>
    ensures value { OnOk result (content.new.items ≡ written at bytes.now content.old.items) }
    ensures torn { OnOk result (Torn at (length bytes.now) content.old.items content.new.items) }
    ensures holds { OnOk result (Holds at bytes.now content.old.items content.new.items) }
    ensures unchanged { OnErr result (content.new.items ≡ content.old.items) }
    ensures roomy { at + length bytes.now ≤ vec_capacity content.old → IsOk result }
    ensures capacity { vec_capacity content.old ≤ vec_capacity content.new }
{
    if bytes.is_empty() {
        return Ok(());
    }
    let Some(end) = at.checked_add(bytes.len()) else {
        return Err(AllocError);
    };
    reach(content, end)?;
    put_in(content, at, bytes);
    Ok(())
}

// Appends zeros up to this length, if the content is shorter.
fn reach(content: &mut Vec<u8>, end: usize) -> Result<(), AllocError>
    ensures value { OnOk result
        (content.new.items ≡ content.old.items ++ replicate (end - length content.old.items) 0) }
    ensures unchanged { OnErr result (content.new.items ≡ content.old.items) }
    ensures roomy { end ≤ vec_capacity content.old → IsOk result }
    ensures capacity { vec_capacity content.old ≤ vec_capacity content.new }
{
    if end > content.len() {
        content.resize(end, 0)?;
    }
    Ok(())
}

fn put_in(content: &mut Vec<u8>, at: usize, bytes: &[u8])
    requires { at + length bytes.now ≤ length content.old.items }
    ensures capacity { vec_capacity content.new ≡ vec_capacity content.old }
    ensures value { content.new.items
        ≡ take at content.old.items ++ bytes.now ++ drop (at + length bytes.now) content.old.items }
{
    put_in_slice(content, at, bytes);
}

fn put_in_slice(content: &mut [u8], at: usize, bytes: &[u8])
    requires { at + length bytes.now ≤ length content.old }
    ensures { content.new ≡ take at content.old ++ bytes.now ++ drop (at + length bytes.now) content.old }
{
    content[at..at + bytes.len()].copy_from_slice(bytes);
}
