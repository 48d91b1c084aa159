ghost use Rattle.pad_text.specs.Text.{IsText};

use crate::unit_store::UnitStore;
use pad_text::{Name, Text};
use std::alloc::{AllocError, Global};

/// The units of a text in one vector.
#[derive(Debug, Drop)]
pub struct VecUnits {
    text: Text,
    ghost is_text: { IsText text },
}

impl UnitStore for VecUnits {
    ghost units = { λ store. store.text };

    fn from_text(alloc: Global, text: &Text) -> Result<VecUnits, AllocError> {
        let units = text.as_units().to_vec(alloc)?;
        Ok(VecUnits {
            text: Text::from_units(units),
        })
    }

    fn length(&self) -> usize {
        self.text.len()
    }

    fn unit(&self, at: usize) -> u16 {
        self.text.unit(at)
    }

    fn read(&self, alloc: Global, from: usize, to: usize) -> Result<Text, AllocError> {
        let units = self.text.as_units()[from..to].to_vec(alloc)?;
        Ok(Text::from_units(units))
    }

    fn replace(
        &mut self,
        alloc: Global,
        from: usize,
        to: usize,
        insert: &Text,
    ) -> Result<(), AllocError> {
        let units = self.text.as_units();
        let mut changed = units[..from].to_vec(alloc)?;
        changed.extend_from_slice(insert.as_units())?;
        changed.extend_from_slice(&units[to..])?;
        *self = VecUnits {
            text: Text::from_units(changed),
        };
        Ok(())
    }

    fn copy(&self, alloc: Global) -> Result<VecUnits, AllocError> {
        VecUnits::from_text(alloc, &self.text)
    }

    fn hash(&self, alloc: Global) -> Result<Name, AllocError> {
        self.text.hash(alloc)
    }

    fn remember(&mut self, _alloc: Global) -> Result<(), AllocError> {
        Ok(())
    }

    ghost is_text = { λ store. store.is_text };
}
