ghost use Rattle.std.specs.Prelude.{◌≡◌, [], ◌∷◌, ◌<◌, length, IfOk, IsTrue};
ghost use Rattle.rw_sets.specs.declared.access.Access.TheVariants.{Read, Write};
ghost use Rattle.rw_sets.specs.Accesses.{writes};
ghost use Rattle.cell_store.specs.declared.cell.Cell.TheVariants.{Home, Out};
ghost use Rattle.cell_store.specs.Cells.{AreHome};

use super::*;
use kdg_text::NoRoom;
use rw_sets::{Access, RwSet};
use std::alloc::Global;
use std::test::Fail;

fn write_first_read_second(alloc: Global) -> Result<RwSet, NoRoom>
    ensures { IfOk result (λ set. set ≡ (0, Write) ∷ (1, Read) ∷ []) }
{
    let mut set = RwSet::new(alloc);
    set.add(0, Access::Write)?;
    set.add(1, Access::Read)?;
    Ok(set)
}

/// A store of 10, 20 and 30 from which the first value was moved out and the second copied.
fn taken(alloc: Global) -> Result<(Store<u64>, Bundle<u64>), NoRoom>
    ensures store { IfOk result (λ pair. pair.0 ≡ Out ∷ Home 20 ∷ Home 30 ∷ []) }
    ensures bundle { IfOk result (λ pair. pair.1 ≡ record { set = (0, Write) ∷ (1, Read) ∷ []; cells = Home 10 ∷ Home 20 ∷ [] }) }
{
    let set = write_first_read_second(alloc)?;
    let mut store = Store::new(alloc, vec![in alloc; 10, 20, 30]?)?;
    let bundle = store.take(&set)?;
    Ok((store, bundle))
}

#[test]
fn takes(rt: HostRuntime) -> Result<(), Fail> {
    let (store, bundle) = taken(rt.alloc())?;
    assert_eq!(rt; (*bundle.get(0), *bundle.get(1)), (10, 20));
    assert_eq!(rt; store.peek(0), Seen::Out);
    assert_eq!(rt;
        (store.peek(1), store.peek(2)),
        (Seen::At(&20), Seen::At(&30))
    );
    assert_eq!(rt; store.len(), 3);
    Ok(())
}

#[test]
fn gives_and_regains(rt: HostRuntime) -> Result<(), Fail> {
    let (mut store, mut bundle) = taken(rt.alloc())?;
    *bundle.get_mut(0) = 11;
    let shell = store.give(bundle);
    assert_eq!(rt; store.peek(0), Seen::At(&11));
    let mut bundle = store.regain(shell);
    assert_eq!(rt; store.peek(0), Seen::Out);
    assert_eq!(rt; bundle.value(0), 11);
    bundle.put(0, 12);
    assert_eq!(rt; (*bundle.get(0), *bundle.get(1)), (12, 20));
    Ok(())
}

#[test]
fn writes_and_drops_at_home(rt: HostRuntime) -> Result<(), Fail> {
    let alloc = rt.alloc();
    let set = write_first_read_second(alloc)?;
    let mut store = Store::new(alloc, vec![in alloc; 10u64, 20, 30]?)?;
    store.put(0, 11);
    assert_eq!(rt; (*store.value(0), *store.value(1)), (11, 20));
    store.drop_written(&set);
    assert_eq!(rt; store.peek(0), Seen::Out);
    assert_eq!(rt;
        (store.peek(1), store.peek(2)),
        (Seen::At(&20), Seen::At(&30))
    );
    Ok(())
}

/// Takes a set and gives it back with another value at one location.
fn rewrite<V: Held>(store: &mut Store<V>, set: RwSet, loc: u32, value: V) -> Result<(), NoRoom>
    requires home { AreHome store.old set }
    requires writes { IsTrue (writes set loc) }
    ensures { length store.new ≡ length store.old }
{
    let mut bundle = store.take_owned(set)?;
    *bundle.get_mut(loc) = value;
    let _ = store.give(bundle);
    Ok(())
}

#[test]
fn serves_bytes_through_the_bound(rt: HostRuntime) -> Result<(), Fail> {
    let alloc = rt.alloc();
    let set = write_first_read_second(alloc)?;
    let mut store = Store::new(alloc, vec![in alloc; 1u8, 2]?)?;
    rewrite(&mut store, set, 0, 9)?;
    assert_eq!(rt;
        (store.peek(0), store.peek(1)),
        (Seen::At(&9), Seen::At(&2))
    );
    Ok(())
}

fn crosses<T: Send>(value: T) -> T {
    value
}

fn is_shared<T: Sync>(_: &T) {}

/// Where the values may cross threads, so may all that holds them.
fn all_cross<V: Held + Sync>(store: Store<V>, bundle: Bundle<V>, shell: Shell<V>) {
    is_shared(&store);
    is_shared(&bundle);
    is_shared(&shell);
    let _ = (crosses(store), crosses(bundle), crosses(shell));
}
