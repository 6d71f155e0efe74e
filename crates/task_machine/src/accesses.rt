//! Loads and stores of elements.
ghost use Rattle.std.specs.Prelude.{◌≡◌};
ghost use Rattle.item_settings.specs.Views.{HasRoom, setting_in};
ghost use Rattle.task_machine.specs.Views.{found_load, found_store};

use item_acts::Action;
use item_settings::{Setting, low_bytes, size_of_elem};
use ocl_program::ArrayRef;
use step_machine::Found;
use vx_base::{Elem, Pos};

/// A load of element i: a fault where the array has none.
pub fn load(at: &Setting<'_>, array: ArrayRef, i: u32, pos: Pos) -> Found<Option<Elem>>
    requires room { HasRoom (setting_in at.now) }
    ensures { result ≡ found_load (setting_in at.now) array i pos }
{
    let array = at.array(array);
    if i < array.count {
        let place = array.element(at.group(), i);
        let size = size_of_elem(array.elem);
        Found::Asks(Action::Load { place, size }, Some(array.elem))
    } else {
        Found::Stops(Action::Fault(pos))
    }
}

/// A store to element i: a fault where the array has none, and nothing where no store may change it.
pub fn store(at: &Setting<'_>, array: ArrayRef, i: u32, value: u32, pos: Pos) -> Found<Option<Elem>>
    requires room { HasRoom (setting_in at.now) }
    ensures { result ≡ found_store (setting_in at.now) array i value pos }
{
    let array = at.array(array);
    if i < array.count {
        if array.writable {
            let place = array.element(at.group(), i);
            let size = size_of_elem(array.elem);
            let value = low_bytes(array.elem, value);
            Found::Asks(Action::Store { place, size, value }, None)
        } else {
            Found::Moved
        }
    } else {
        Found::Stops(Action::Fault(pos))
    }
}
