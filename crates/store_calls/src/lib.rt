// Keep, return and forget: a bath file into a store under a name, out of it again, and gone.
#![tactic(auto)]

ghost use Rattle.std.specs.Prelude.{◌≡◌, ◌&&◌, leb};
ghost use Rattle.refusal.specs.Refused.{done, told};
ghost use Rattle.store.specs.Form.{most_file, valid_store};
ghost use Rattle.store.specs.Operations.{checked_call, KeepIs, ReturnIs, ForgetIs};
ghost use Rattle.store.specs.Internal.{Begun, Returnable, Keepable, KeepsAt};

use limits::Caller;
use refusal::Refusal;
use store::MOST_FILE;

// The checks that every call begins with: 1 where its buffers are not as they must be, and 22. The operations call it.
fn begin(valid: bool, name: &[u8]) -> Result<(), Refusal>
    ensures { told result ≡ checked_call valid name.now done }
{
    let named = store_bytes::valid_name(name);
    if !valid {
        return Err(Refusal::Length);
    }
    if !named {
        return Err(Refusal::Name);
    }
    Ok(())
}

// Keeps a file that has passed its own checks. `keep_named` calls it.
fn keep_file(store: &mut [u8], name: &[u8], file: &[u8]) -> Result<(), Refusal>
    requires { Keepable store.old name.now file.now }
    ensures { KeepsAt store.old name.now file.now (told result) store.new }
{
    let place = store_place::place_for(store, name).ok_or(Refusal::FullStore)?;
    store_place::put(store, place, name, file);
    Ok(())
}

// Keeps a file under a name that has passed its checks, in a store that has passed them. `keep` calls it.
fn keep_named(caller: Caller, store: &mut [u8], name: &[u8], file: &[u8]) -> Result<(), Refusal>
    requires { Begun store.old name.now }
    ensures { KeepIs caller store.old name.now file.now (told result) store.new }
{
    file_reader::read_file(caller, file)?;
    keep_file(store, name, file)
}

// Keep: a bath file within the caller's limits, under a name, in the place that has the name, or else in the lowest that is free.
pub fn keep(caller: Caller, store: &mut [u8], name: &[u8], file: &[u8]) -> Result<(), Refusal>
    ensures { KeepIs caller store.old name.now file.now (told result) store.new }
{
    begin(store_form::valid_store(store), name)?;
    keep_named(caller, store, name, file)
}

// A store is of its length and form, and a buffer of this length has room for the longest file. `return_to` calls it.
fn valid_buffers(store: &[u8], room: usize) -> bool
    ensures { result ≡ (valid_store store.now && leb most_file room) }
{
    store_form::valid_store(store) && MOST_FILE <= room
}

// Returns to a bath by a name that has passed its checks, with buffers that have passed theirs. `return_to` calls it.
fn return_named(store: &[u8], name: &[u8], buffer: &mut [u8]) -> Result<usize, Refusal>
    requires { Returnable store.now name.now buffer.old }
    ensures { ReturnIs store.now name.now buffer.old (told result) buffer.new }
{
    let k = store_place::place_of(store, name).ok_or(Refusal::NotHeld)?;
    Ok(store_place::copy_file(store, k, buffer))
}

// Return: the file under a name, written at the front of a buffer that has room for the longest.
pub fn return_to(store: &[u8], name: &[u8], buffer: &mut [u8]) -> Result<usize, Refusal>
    ensures { ReturnIs store.now name.now buffer.old (told result) buffer.new }
{
    begin(valid_buffers(store, buffer.len()), name)?;
    return_named(store, name, buffer)
}

// Forgets a name that has passed its checks, in a store that has passed them. `forget` calls it.
fn forget_named(store: &mut [u8], name: &[u8]) -> Result<(), Refusal>
    requires { Begun store.old name.now }
    ensures { ForgetIs store.old name.now (told result) store.new }
{
    let k = store_place::place_of(store, name).ok_or(Refusal::NotHeld)?;
    store_place::free(store, k);
    Ok(())
}

// Forget: the place that has a name becomes free, and no byte of its bath is left.
pub fn forget(store: &mut [u8], name: &[u8]) -> Result<(), Refusal>
    ensures { ForgetIs store.old name.now (told result) store.new }
{
    begin(store_form::valid_store(store), name)?;
    forget_named(store, name)
}
