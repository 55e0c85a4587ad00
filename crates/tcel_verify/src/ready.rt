ghost use Rattle.std.specs.Prelude.{◌≡◌, map, IfOk};
ghost use Rattle.tcel_image.specs.Spelling.{InRange};
ghost use Rattle.tcel_image.specs.Validity.{IsValid};
ghost use Rattle.tcel_num.specs.PortRow.{HaveDistinctNames};
ghost use Rattle.tcel_verify.specs.Ports.{port_row, port_rows};

use sqlite_items::Items;
use std::alloc::Global;
use std::marker::Model;
use tcel_image::{Image, ImageTask};
use tcel_num::{NoMemory, PortRow};

/// An image that was verified. Contracts see it as the image, which is in range and valid
/// (docs/formats.md).
#[derive(Debug, Drop)]
pub struct Ready {
    image: Image,
}

impl Model for Ready {
    ghost use Rattle.tcel_image.specs.declared.image.Image.{Image};
    ghost use Rattle.tcel_image.specs.Spelling.{InRange};
    ghost use Rattle.tcel_image.specs.Validity.{IsValid};

    ghost Value = { Image };

    ghost view = { λ ready. ready.image };

    ghost invariant = { λ ready. InRange ready.image × IsValid ready.image };
}

impl Ready {
    /// An image that is known to be in range and valid, so that nothing is tested.
    pub fn new(image: Image) -> Ready
        requires range { InRange image }
        requires valid { IsValid image }
        ensures { result ≡ image }
    {
        Ready { image }
    }

    /// The image, in range and valid.
    pub fn image(&self) -> &Image
        ensures value { result.now ≡ self.now }
        ensures range { InRange self.now }
        ensures valid { IsValid self.now }
    {
        &self.image
    }

    /// A row for each task, in order: its name and the names of its inputs. No two tasks have one name,
    /// and no two inputs of one task.
    #[tactic(auto, using(crate::proofs::PortNames::distinct_ports))]
    pub fn ports(&self, alloc: Global) -> Result<Vec<PortRow>, NoMemory>
        ensures rows { IfOk result (λ rows. rows.items ≡ port_rows self.now) }
        ensures distinct { IfOk result (λ rows. HaveDistinctNames rows.items) }
    {
        let image = self.image();
        port_rows(alloc, image.tasks.as_slice())
    }
}

fn port_rows(alloc: Global, tasks: &[ImageTask]) -> Result<Vec<PortRow>, NoMemory>
    ensures { IfOk result (λ rows. rows.items ≡ map port_row tasks.now) }
{
    let mut rows = Vec::new(alloc);
    for task in tasks {
        let inputs = Items::from_slice(alloc, task.inputs.as_slice())?;
        rows.push(PortRow {
            task: task.name,
            inputs,
        })?;
    }
    Ok(rows)
}
