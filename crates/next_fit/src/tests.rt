use crate::NextFit;
use allocator::allocator::Allocator;

// Next fit moves on from the mark, and wraps to the lowest granules.
#[test]
fn places_from_the_mark(rt: HostRuntime) {
    let mut used = [255u8; 2];
    let mut firsts = [255u8; 2];
    let mut part = NextFit::new(&mut used, &mut firsts);
    assert_eq!(rt; part.allocate(3).ok(), Some(0));
    assert_eq!(rt; part.allocate(2).ok(), Some(3));
    assert_eq!(rt; part.allocate(2).ok(), Some(5));
    assert_eq!(rt; part.allocate(2).ok(), Some(7));
    assert_eq!(rt; part.allocate(7).ok(), Some(9));
    assert_eq!(rt; part.taken(), 16);
    assert_eq!(rt; part.release(0).ok(), Some(3));
    assert_eq!(rt; part.release(5).ok(), Some(2));
    assert_eq!(rt; part.release(9).ok(), Some(7));
    assert_eq!(rt; part.allocate(2).ok(), Some(0));
    assert_eq!(rt; part.allocate(2).ok(), Some(5));
    assert_eq!(rt; part.allocate(2).ok(), Some(9));
}

// A run is answered by its first granule only.
#[test]
fn runs_have_one_first(rt: HostRuntime) {
    let mut used = [0u8; 2];
    let mut firsts = [0u8; 2];
    let mut part = NextFit::new(&mut used, &mut firsts);
    assert_eq!(rt; part.allocate(3).ok(), Some(0));
    assert_eq!(rt; part.allocate(2).ok(), Some(3));
    assert_eq!(rt; part.length_at(0), 3);
    assert_eq!(rt; part.length_at(1), 0);
    assert_eq!(rt; part.length_at(3), 2);
    assert_eq!(rt; part.release(1).ok(), None);
    assert_eq!(rt; part.release(16).ok(), None);
    assert_eq!(rt; part.allocate(0).ok(), None);
    assert_eq!(rt; part.allocate(12).ok(), None);
    assert_eq!(rt; part.allocate(usize::MAX).ok(), None);
    assert_eq!(rt; part.taken(), 5);
}

// 1,024 granules fit, 1,040 do not.
#[test]
fn sizes_have_a_limit(rt: HostRuntime) {
    assert_eq!(rt; NextFit::check_sizes(&[0; 2], &[0; 2]).ok(), Some(16));
    assert_eq!(rt; NextFit::check_sizes(&[0; 128], &[0; 128]).ok(), Some(1024));
    assert_eq!(rt; NextFit::check_sizes(&[0; 130], &[0; 130]).ok(), None);
    assert_eq!(rt; NextFit::check_sizes(&[0; 2], &[0; 4]).ok(), None);
}
