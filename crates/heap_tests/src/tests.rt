// Each heap under the tests that are the same for all, with what this heap leaves free.
use crate::any_heap::*;
use counting::CountingHeap;
use heap::{Address, Heap};
use keep_all::KeepAllHeap;
use std::alloc::Global;
use std::test::Fail;

// A heap that a test builds over so many cells, and how many cells it gives back.
trait Built: Heap + Drop {
    fn build(alloc: Global, cells: usize) -> Result<Self, Fail>
    where
        Self: Sized;

    fn cells_back(self) -> usize
    where
        Self: Sized;
}

impl Built for KeepAllHeap {
    fn build(alloc: Global, cells: usize) -> Result<KeepAllHeap, Fail> {
        Ok(KeepAllHeap::new(vec![in alloc; keep_all::Cell::new(); cells]?))
    }

    fn cells_back(self) -> usize {
        self.into_cells().len()
    }
}

impl Built for CountingHeap {
    fn build(alloc: Global, cells: usize) -> Result<CountingHeap, Fail> {
        Ok(CountingHeap::new(vec![in alloc; counting::Cell::new(); cells]?))
    }

    fn cells_back(self) -> usize {
        self.into_cells().len()
    }
}

fn fills_any<H: Built>(alloc: Global) -> Result<(), Fail> {
    fills(&mut H::build(alloc, 0)?, 0)?;
    fills(&mut H::build(alloc, 1)?, 1)?;
    fills(&mut H::build(alloc, 1024)?, 1024)?;
    let mut heap = H::build(alloc, 2000)?;
    fills(&mut heap, 1024)?;
    let back = heap.cells_back();
    if back == 2000 {
        return Ok(());
    }
    Err(Fail::new(format_args!("{back} cells come back, not 2000")))
}

fn refuses_any<H: Built>(alloc: Global) -> Result<(), Fail> {
    keeps_kinds(&mut H::build(alloc, 1)?)?;
    refuses_unheld(&mut H::build(alloc, 2)?)?;
    refuses_untaken(&mut H::build(alloc, 2)?, Address { at: 1 })?;
    refuses_untaken(&mut H::build(alloc, 2)?, Address { at: 2 })?;
    holds(&mut H::build(alloc, 1)?)
}

// Of 1,024 places and of 10, so many are free after the list is let go.
fn frees_any<H: Built>(alloc: Global, of_list: u16, of_tail: u16) -> Result<(), Fail> {
    lets_list_go(&mut H::build(alloc, 1024)?, of_list)?;
    keeps_tail(&mut H::build(alloc, 10)?, of_tail)?;
    keeps_ring(&mut H::build(alloc, 4)?)?;
    lets_all_go(&mut H::build(alloc, 2)?, alloc)
}

#[test]
fn keep_all_fills(rt: HostRuntime) -> Result<(), Fail> {
    fills_any::<KeepAllHeap>(rt.alloc())
}

#[test]
fn keep_all_refuses(rt: HostRuntime) -> Result<(), Fail> {
    refuses_any::<KeepAllHeap>(rt.alloc())
}

#[test]
fn keep_all_keeps(rt: HostRuntime) -> Result<(), Fail> {
    frees_any::<KeepAllHeap>(rt.alloc(), 24, 0)
}

#[test]
fn counting_fills(rt: HostRuntime) -> Result<(), Fail> {
    fills_any::<CountingHeap>(rt.alloc())
}

#[test]
fn counting_refuses(rt: HostRuntime) -> Result<(), Fail> {
    refuses_any::<CountingHeap>(rt.alloc())
}

#[test]
fn counting_frees(rt: HostRuntime) -> Result<(), Fail> {
    frees_any::<CountingHeap>(rt.alloc(), 1024, 4)
}
