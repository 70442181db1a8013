// Case 12: the fatal losses of three and of four disks, counted for 2 to 4 data rows and columns.
#![tactic(auto)]

use model::Size;
use model::answer::Verdict;
use std::io;

// Four disks.
#[derive(Clone, Copy)]
struct Four {
    a: usize,
    b: usize,
    c: usize,
    d: usize,
}

// The digits of a number to the base 32.
fn four_of(k: usize) -> Four {
    Four {
        a: k / 32768,
        b: k / 1024 % 32,
        c: k / 32 % 32,
        d: k % 32,
    }
}

// How many disks they are: four where they rise, three where only the first two are the same. 0 stands for any other order,
// so that each set of disks is met once.
fn number_of(set: Four) -> usize {
    if set.c >= set.d {
        return 0;
    }
    if set.b >= set.c {
        return 0;
    }
    if set.a > set.b {
        return 0;
    }
    if set.a == set.b {
        return 3;
    }
    4
}

// Stores a byte of the map.
fn put(map: &mut [u8], disk: usize, value: u8) {
    if disk < map.len() {
        map[disk] = value;
    }
}

// Erases the disks of a set, or brings them back.
fn put_all(map: &mut [u8], set: Four, value: u8) {
    put(map, set.a, value);
    put(map, set.b, value);
    put(map, set.c, value);
    put(map, set.d, value);
}

// The loss is fatal.
fn fatal(size: Size, map: &[u8]) -> bool {
    let mut sheet = [0u8; 98];
    matches!(
        plan::plan(size, 1, map, &mut sheet),
        Ok(Verdict::Fatal { .. })
    )
}

// The digits of k are so many disks, and their loss is fatal. The map is clear before and after.
fn fatal_set(size: Size, map: &mut [u8], k: usize, number: usize) -> bool {
    let set = four_of(k);
    if set.d >= map.len() || number_of(set) != number {
        return false;
    }
    put_all(map, set, 1);
    let found = fatal(size, map);
    put_all(map, set, 0);
    found
}

// How many losses of so many disks are fatal.
fn fatal_sets(size: Size, map: &mut [u8], number: usize) -> usize {
    let mut found = 0;
    for k in 0..1048576 {
        if fatal_set(size, map, k, number) {
            found += 1;
        }
    }
    found
}

// The counts for one size, with a clear map of its length.
fn counted(rt: &impl Print, rows: usize, columns: usize, map: &mut [u8]) -> io::Result<()> {
    let size = Size { rows, columns };
    say::size(rt, rows, columns)?;
    say::end(rt)?;
    say::number(rt, "fatal sets of three", fatal_sets(size, map, 3))?;
    say::number(rt, "fatal sets of four", fatal_sets(size, map, 4))
}

fn squares(rt: &impl Print) -> io::Result<()> {
    let mut nine = [0u8; 9];
    let mut sixteen = [0u8; 16];
    let mut twenty_five = [0u8; 25];
    counted(rt, 2, 2, &mut nine)?;
    counted(rt, 3, 3, &mut sixteen)?;
    counted(rt, 4, 4, &mut twenty_five)
}

// Each wider than high and higher than wide, with the same map.
fn rectangles(rt: &impl Print) -> io::Result<()> {
    let mut twelve = [0u8; 12];
    let mut fifteen = [0u8; 15];
    let mut twenty = [0u8; 20];
    counted(rt, 2, 3, &mut twelve)?;
    counted(rt, 3, 2, &mut twelve)?;
    counted(rt, 2, 4, &mut fifteen)?;
    counted(rt, 4, 2, &mut fifteen)?;
    counted(rt, 3, 4, &mut twenty)?;
    counted(rt, 4, 3, &mut twenty)
}

fn main(rt: HostRuntime) -> io::Result<()> {
    squares(&rt)?;
    rectangles(&rt)
}
