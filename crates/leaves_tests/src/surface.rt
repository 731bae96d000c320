//! Each public function, with its refusals.

use crate::histories::{key_of, leaf};
use crate::memory::Memory;
use leaves::{Disk, Key, LeavesFault, Logged, create, restore, sign};
use lms::{Height, Secret, StoredSecret, Width, verify};
use std::test::Fail;

#[test]
fn a_missing_file_is_no_zero(rt: HostRuntime) -> Result<(), Fail> {
    let alloc = rt.alloc();
    let messages = vec![in alloc; b"one".to_vec(alloc)?]?;
    let mut key = key_of(alloc)?;
    let public = Key::public(&key);
    let mut disk = Logged::new(alloc, Memory::new(alloc));
    let outcome = sign(alloc, &mut disk, &mut key, &messages);
    assert_eq!(rt; outcome, Err(LeavesFault::Missing));
    assert_eq!(rt; create(alloc, &mut disk, &public), Ok(()));
    assert_eq!(rt; create(alloc, &mut disk, &public), Err(LeavesFault::Exists));
    assert_eq!(rt; sign(alloc, &mut disk, &mut key, &messages), Ok(()));
    let memory = disk.into_calls();
    assert_eq!(rt; memory.given.len(), 1);
    assert_eq!(rt; memory.log.len(), 2);
    Ok(())
}

#[test]
fn a_stored_key_signs_by_the_leaves_of_the_file(rt: HostRuntime) -> Result<(), Fail> {
    let alloc = rt.alloc();
    let secret = key_of(alloc)?;
    let public = Secret::public(&secret);
    let mut key = StoredSecret::of(alloc, &public, [7; 32], secret.leaf_values())?;
    let mut disk = Logged::new(alloc, Memory::new(alloc));
    assert_eq!(rt; restore(alloc, &mut disk, &public, 20, 10), Ok(30));
    assert_eq!(rt; restore(alloc, &mut disk, &public, 20, 0), Ok(30));
    let two = vec![in alloc; b"one".to_vec(alloc)?, b"two".to_vec(alloc)?]?;
    assert_eq!(rt; sign(alloc, &mut disk, &mut key, &two), Ok(()));
    assert_eq!(rt;
        sign(alloc, &mut disk, &mut key, &two),
        Err(LeavesFault::Used)
    );
    let memory = disk.into_calls();
    assert_eq!(rt; memory.given.len(), 2);
    for (place, sig) in memory.given.iter().enumerate() {
        assert_eq!(rt; leaf(sig), Some(30 + place as u32));
        assert!(rt; verify(&public, &two[place], sig));
    }
    Ok(())
}

#[test]
fn a_file_of_another_key_is_refused(rt: HostRuntime) -> Result<(), Fail> {
    let alloc = rt.alloc();
    let mut key = key_of(alloc)?;
    let other = Secret::of(alloc, [4; 16], [7; 32], Width::W4, Height::H5)?;
    let mut disk = Logged::new(alloc, Memory::new(alloc));
    assert_eq!(rt; create(alloc, &mut disk, &Key::public(&other)), Ok(()));
    let one = vec![in alloc; b"one".to_vec(alloc)?]?;
    assert_eq!(rt;
        sign(alloc, &mut disk, &mut key, &one),
        Err(LeavesFault::Foreign)
    );
    let public = Key::public(&key);
    assert_eq!(rt;
        restore(alloc, &mut disk, &public, 9, 1),
        Err(LeavesFault::Foreign)
    );
    Ok(())
}

#[test]
fn a_key_past_the_file_is_refused(rt: HostRuntime) -> Result<(), Fail> {
    let alloc = rt.alloc();
    let mut key = key_of(alloc)?;
    let public = Key::public(&key);
    Key::skip_to(&mut key, 5)?;
    let mut disk = Logged::new(alloc, Memory::new(alloc));
    assert_eq!(rt; create(alloc, &mut disk, &public), Ok(()));
    let one = vec![in alloc; b"one".to_vec(alloc)?]?;
    assert_eq!(rt;
        sign(alloc, &mut disk, &mut key, &one),
        Err(LeavesFault::Key)
    );
    assert_eq!(rt; disk.into_calls().given.len(), 0);
    Ok(())
}

#[test]
fn a_number_past_all_leaves_is_refused(rt: HostRuntime) -> Result<(), Fail> {
    let alloc = rt.alloc();
    let public = Key::public(&key_of(alloc)?);
    let mut disk = Logged::new(alloc, Memory::new(alloc));
    let outcome = restore(alloc, &mut disk, &public, u32::MAX, 1);
    assert_eq!(rt; outcome, Err(LeavesFault::Used));
    assert!(rt; disk.read(alloc)?.is_none());
    Ok(())
}
