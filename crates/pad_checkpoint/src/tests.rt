//! A chain of messages with checkpoints, and messages that come late below its root.

use crate::cuts::cut;
use crate::marks::Marks;
use crate::path_mark::PathMark;
use crate::place::Place;
use crate::pruning::Pruning;
use pad_graph::{AddRefused, Graph, Linking, Linkings, Standing};
use pad_text::Name;
use std::alloc::{AllocError, Global};
use std::test::Fail;

/// The place of the message with this byte in each place of its name.
fn place(byte: u8, height: u64) -> Place {
    Place {
        name: Name([byte; 32]),
        height,
    }
}

/// Marks of messages at heights from 1 on, with the height as byte. The heights of `checkpoints` are checkpoints'.
fn marks(alloc: Global, count: u8, checkpoints: &[u8]) -> Result<Marks, AllocError> {
    let mut marks = Vec::new(alloc);
    for number in 0..count {
        let byte = number.saturating_add(1);
        marks.push(PathMark {
            place: place(byte, byte as u64),
            checkpoint: checkpoints.contains(&byte),
        })?;
    }
    Ok(Marks::new(marks))
}

/// A graph of a chain of so many messages.
fn chain(alloc: Global, count: u8) -> Result<Graph, AddRefused> {
    let mut graph = Graph::new(alloc, Name([0; 32]))?;
    for number in 0..count {
        let byte = number.saturating_add(1);
        graph.add(alloc, Name([byte; 32]), Name([number; 32]))?;
    }
    Ok(graph)
}

#[test]
fn the_root_moves_up_to_the_last_but_one_checkpoint(rt: HostRuntime) -> Result<(), Fail> {
    let alloc = rt.alloc();
    let base = place(0, 0);
    assert_eq!(rt; cut(base, &marks(alloc, 5, &[3])?), base);
    assert_eq!(rt; cut(base, &marks(alloc, 5, &[2, 3, 5])?), place(3, 3));
    let mut graph = chain(alloc, 5)?;
    let mut pruning = Pruning::new(base);
    let one = marks(alloc, 5, &[3])?;
    assert_eq!(rt; pruning.settle(alloc, &mut graph, &one)?, 0);
    assert_eq!(rt; pruning.root(), base);
    let two = marks(alloc, 5, &[3, 5])?;
    assert_eq!(rt; pruning.settle(alloc, &mut graph, &two)?, 2);
    assert_eq!(rt; pruning.root(), place(3, 3));
    assert_eq!(rt; graph.standing(&Name([2; 32])), Standing::Gone(2));
    assert_eq!(rt; pruning.overtaken(), 0);
    Ok(())
}

#[test]
fn those_that_better_the_best_chain_overtake(rt: HostRuntime) -> Result<(), Fail> {
    let alloc = rt.alloc();
    let mut below = Vec::new(alloc);
    for (height, byte) in [(4u64, 1u8), (5, 6), (5, 8), (5, 7), (6, 9)] {
        below.push(Linking {
            height,
            name: Name([byte; 32]),
        })?;
    }
    let mut pruning = Pruning::new(place(0, 0));
    pruning.count_below(&Linkings::new(below), &place(7, 5));
    assert_eq!(rt; pruning.overtaken(), 2);
    Ok(())
}
