//! Permutations and rotation systems: counts, and what changes do to them.

use std::test::Fail;
use topo_perm::laws::{bypass, euler, exchange};
use topo_perm::{Euler, cycles, is_connected, same_cycle};

#[test]
fn counts_cycles_and_tells_them_apart(rt: HostRuntime) -> Result<(), Fail> {
    assert!(rt; cycles(rt.alloc(), &[])? == 0);
    let images = [1, 2, 0, 4, 3];
    assert!(rt; cycles(rt.alloc(), &images)? == 2);
    assert!(rt; same_cycle(&images, 0, 2));
    assert!(rt; !same_cycle(&images, 0, 3));
    Ok(())
}

#[test]
fn exchanges_images_and_bypasses_points(rt: HostRuntime) -> Result<(), Fail> {
    // of two cycles
    let mut images = [1, 2, 0, 4, 3];
    exchange(&mut images, 0, 3);
    assert!(rt; images == [4, 2, 0, 1, 3]);
    assert!(rt; cycles(rt.alloc(), &images)? == 1);
    // of one cycle
    let mut images = [1, 2, 0, 4, 3];
    exchange(&mut images, 0, 1);
    assert!(rt; images == [2, 1, 0, 4, 3]);
    assert!(rt; cycles(rt.alloc(), &images)? == 3);
    let mut images = [1, 2, 0, 4, 3];
    bypass(&mut images, 0);
    assert!(rt; images == [0, 2, 1, 4, 3]);
    assert!(rt; cycles(rt.alloc(), &images)? == 3);
    Ok(())
}

/// The numbers of points, segments, faces and components of a rotation system.
fn numbers(points: u64, segments: u64, faces: u64, components: u64) -> Euler {
    Euler {
        points,
        segments,
        faces,
        components,
    }
}

#[test]
fn counts_rotation_systems_and_tells_connected_ones(rt: HostRuntime) -> Result<(), Fail> {
    assert!(rt; euler(rt.alloc(), &[])? == numbers(0, 0, 0, 0));
    assert!(rt; is_connected(rt.alloc(), &[])?);
    assert!(rt; euler(rt.alloc(), &[0, 1])? == numbers(2, 1, 1, 1));
    assert!(rt; euler(rt.alloc(), &[0, 1, 2, 3])? == numbers(4, 2, 2, 2));
    assert!(rt; !is_connected(rt.alloc(), &[0, 1, 2, 3])?);
    assert!(rt; euler(rt.alloc(), &[2, 3, 1, 0])? == numbers(1, 2, 1, 1));
    assert!(rt; is_connected(rt.alloc(), &[2, 3, 1, 0])?);
    Ok(())
}
