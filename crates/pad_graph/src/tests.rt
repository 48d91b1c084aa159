//! Worked rows, and all short runs beside a plain list.

ghost use Rattle.std.specs.Prelude.{◌≡◌, IfOk};

use crate::add_refused::AddRefused;
use crate::added::Added;
use crate::graph::Graph;
use crate::linking::Linking;
use crate::standing::Standing;
use pad_text::Name;
use std::alloc::{AllocError, Global};
use std::test::Fail;

/// The name with this byte in each place. The base's is the one of 0.
fn name(byte: u8) -> Name {
    Name([byte; 32])
}

/// A linking at this height.
fn linking(height: u64, byte: u8) -> Linking {
    Linking {
        height,
        name: name(byte),
    }
}

/// Which answer this is, and its linkings.
fn told(added: &Added) -> (&str, &[Linking]) {
    match added {
        Added::Known => ("known", &[]),
        Added::Waiting => ("waiting", &[]),
        Added::Linked(linkings) => ("linked", linkings.as_slice()),
        Added::Below(linkings) => ("below", linkings.as_slice()),
    }
}

/// Adds a name and takes it back. It answers whether it was new.
fn add_and_undo(
    alloc: Global,
    graph: &mut Graph,
    name: Name,
    parent: Name,
) -> Result<bool, AddRefused> {
    match graph.add(alloc, name, parent)? {
        Added::Known => Ok(false),
        _ => {
            graph.undo_add(&name);
            Ok(true)
        }
    }
}

/// Keeps the graph from this name on, where that is linked through the root.
fn keep(alloc: Global, graph: &mut Graph, root: &Name) -> Result<Option<u64>, AllocError> {
    match graph.standing(root) {
        Standing::Linked(_) => {
            let dropped = graph.keep_from(alloc, root)?;
            Ok(Some(dropped))
        }
        _ => Ok(None),
    }
}

#[test]
fn messages_are_linked_taken_back_and_dropped(rt: HostRuntime) -> Result<(), Fail> {
    let alloc = rt.alloc();
    let (base, a, b, c, d) = (name(0), name(1), name(2), name(3), name(4));
    let mut graph = Graph::new(alloc, base)?;
    assert_eq!(rt; told(&graph.add(alloc, c, b)?).0, "waiting");
    assert_eq!(rt; told(&graph.add(alloc, b, a)?).0, "waiting");
    assert_eq!(rt; graph.parent(&c), Some(b));
    assert_eq!(rt; graph.children(&a), [b].as_slice());
    let linked = [linking(1, 1), linking(2, 2), linking(3, 3)];
    assert_eq!(rt; add_and_undo(alloc, &mut graph, a, base)?, true);
    assert_eq!(rt; (graph.known(), graph.waiting(), graph.kept()), (2, 2, 1));
    assert_eq!(rt; graph.standing(&a), Standing::Unknown);
    assert_eq!(rt;
        told(&graph.add(alloc, a, base)?),
        ("linked", linked.as_slice())
    );
    assert_eq!(rt; told(&graph.add(alloc, a, base)?).0, "known");
    assert_eq!(rt; told(&graph.add(alloc, base, c)?).0, "known");
    assert_eq!(rt; (graph.known(), graph.waiting(), graph.kept()), (3, 0, 4));
    assert_eq!(rt; keep(alloc, &mut graph, &b)?, Some(1));
    assert_eq!(rt; graph.dropped(), [linking(0, 0), linking(1, 1)].as_slice());
    assert_eq!(rt; graph.standing(&base), Standing::Gone(0));
    assert_eq!(rt; graph.standing(&a), Standing::Gone(1));
    assert_eq!(rt; graph.standing(&c), Standing::Linked(3));
    assert_eq!(rt; (graph.parent(&a), graph.parent(&b)), (None, Some(a)));
    assert_eq!(rt;
        told(&graph.add(alloc, d, a)?),
        ("below", [linking(2, 4)].as_slice())
    );
    assert_eq!(rt; (graph.known(), graph.waiting(), graph.kept()), (4, 0, 2));
    Ok(())
}

#[test]
fn linkings_come_by_height_and_then_by_name(rt: HostRuntime) -> Result<(), Fail> {
    let alloc = rt.alloc();
    let mut graph = Graph::new(alloc, name(0))?;
    for (child, parent) in [(9, 1), (4, 9), (3, 9), (2, 1), (5, 2), (7, 7)] {
        assert_eq!(rt;
            told(&graph.add(alloc, name(child), name(parent))?).0,
            "waiting"
        );
    }
    let linked = [
        linking(1, 1),
        linking(2, 2),
        linking(2, 9),
        linking(3, 3),
        linking(3, 4),
        linking(3, 5),
    ];
    assert_eq!(rt;
        told(&graph.add(alloc, name(1), name(0))?),
        ("linked", linked.as_slice())
    );
    assert_eq!(rt; graph.standing(&name(7)), Standing::Waiting);
    assert_eq!(rt; (graph.known(), graph.waiting(), graph.kept()), (7, 1, 7));
    Ok(())
}

/// The height of a name by the first link of each name; none where it does not hang on the base.
fn height_of(links: &[(u8, u8)], name: u8) -> Option<u64> {
    let mut at = name;
    for height in 0..8u64 {
        if at == 0 {
            return Some(height);
        }
        let link = links.iter().find(|link| link.0 == at)?;
        at = link.1;
    }
    None
}

/// Whether the way from a name down to the base goes through the root.
fn goes_through(links: &[(u8, u8)], name: u8, root: u8) -> bool {
    let mut at = name;
    for _turn in 0..8u64 {
        if at == root {
            return true;
        }
        let Some(link) = links.iter().find(|link| link.0 == at) else {
            return false;
        };
        at = link.1;
    }
    false
}

/// How a name stands by a list of links.
fn standing_of(links: &[(u8, u8)], name: u8, root: u8) -> Standing {
    if name != 0 && links.iter().all(|link| link.0 != name) {
        return Standing::Unknown;
    }
    match height_of(links, name) {
        None => Standing::Waiting,
        Some(height) if goes_through(links, name, root) => Standing::Linked(height),
        Some(height) => Standing::Gone(height),
    }
}

/// Whether each of the names stands as the list says.
fn agrees(graph: &Graph, links: &[(u8, u8)], root: u8) -> bool {
    (0..4u8).all(|byte| graph.standing(&name(byte)) == standing_of(links, byte, root))
}

/// Whether the graph and the list agree after each of these, after one more that is taken back, and once the root is `root`.
fn run_agrees(alloc: Global, links: &[(u8, u8)], root: u8) -> Result<bool, AddRefused> {
    let mut graph = Graph::new(alloc, name(0))?;
    let mut seen = Vec::new(alloc);
    let mut same = true;
    for (child, parent) in links {
        let unknown = graph.standing(&name(*child)) == Standing::Unknown;
        let new = add_and_undo(alloc, &mut graph, name(*child), name(*parent))?;
        same = same && new == unknown && agrees(&graph, seen.as_slice(), 0);
        graph.add(alloc, name(*child), name(*parent))?;
        match seen.push((*child, *parent)) {
            Ok(()) => {}
            Err(_) => return Err(AddRefused::NoMemory(AllocError)),
        }
        same = same && agrees(&graph, seen.as_slice(), 0);
    }
    if keep(alloc, &mut graph, &name(root))?.is_some() {
        same = same && agrees(&graph, links, root);
    }
    Ok(same)
}

#[test]
fn all_short_runs_agree_with_a_list(rt: HostRuntime) -> Result<(), Fail> {
    let alloc = rt.alloc();
    let mut runs = 0u64;
    for first in 0..12u8 {
        for second in 0..12u8 {
            for third in 0..12u8 {
                let links = [
                    (first / 4 + 1, first % 4),
                    (second / 4 + 1, second % 4),
                    (third / 4 + 1, third % 4),
                ];
                for root in 0..4u8 {
                    assert!(rt; run_agrees(alloc, &links, root)?);
                    runs = runs.saturating_add(1);
                }
            }
        }
    }
    assert_eq!(rt; runs, 6912);
    Ok(())
}
