//! What is read of a tree.
ghost use Rattle.std.specs.Prelude.{◌≡◌, ℕ, List, ◌-◌, ◌<◌, ◌≤◌, ◌++◌, length, take, drop, slice_index, OnOk};
ghost use Rattle.pad_text.specs.Text.{IsText, CutsPair, utf8};
ghost use Rattle.pad_patch.specs.UnitStore.{IsRange, between};
ghost use Rattle.sha2.specs.Hashers.{Holds256};

use crate::tree::{Node, Tree};
use pad_text::feed_utf8;
use sha2::Sha256;
use std::alloc::{AllocError, Global};

impl Tree {
    /// The unit at a place.
    pub(crate) fn unit(&self, at: usize) -> u16
        requires { at < length self.now.units }
        ensures { result ≡ slice_index self.now.units at }
    {
        match &self.node {
            Node::Leaf(text) => text.unit(at),
            Node::Fork { left, right, .. } => {
                let seam = left.length();
                if at < seam {
                    left.unit(at)
                } else {
                    right.unit(at - seam)
                }
            }
        }
    }

    /// Puts the units from one place to another after those of a vector.
    pub(crate) fn read_into(
        &self,
        from: usize,
        to: usize,
        units: &mut Vec<u16>,
    ) -> Result<(), AllocError>
        requires ordered { from ≤ to }
        requires inside { to ≤ length self.now.units }
        ensures { OnOk result (units.new.items ≡ units.old.items ++ between from to self.now.units) }
    {
        match &self.node {
            Node::Leaf(text) => units.extend_from_slice(&text.as_units()[from..to]),
            Node::Fork { left, right, .. } => {
                let seam = left.length();
                if to <= seam {
                    return left.read_into(from, to, units);
                }
                if seam <= from {
                    return right.read_into(from - seam, to - seam, units);
                }
                left.read_into(from, seam, units)?;
                right.read_into(0, to - seam, units)
            }
        }
    }

    /// Adds the units from one place to another, in UTF-8, to what a hasher holds.
    pub(crate) fn feed(
        &self,
        alloc: Global,
        from: usize,
        to: usize,
        hasher: &mut Sha256,
    ) -> Result<(), AllocError>
        requires { IsRange self.now.units from to }
        ensures { (message : List ℕ) → Holds256 hasher.old message
            → OnOk result (Holds256 hasher.new (message ++ utf8 (between from to self.now.units))) }
    {
        match &self.node {
            Node::Leaf(text) => feed_utf8(alloc, &text.as_units()[from..to], hasher),
            Node::Fork { left, right, .. } => {
                let seam = left.length();
                if to <= seam {
                    return left.feed(alloc, from, to, hasher);
                }
                if seam <= from {
                    return right.feed(alloc, from - seam, to - seam, hasher);
                }
                left.feed(alloc, from, seam, hasher)?;
                right.feed(alloc, 0, to - seam, hasher)
            }
        }
    }
}
