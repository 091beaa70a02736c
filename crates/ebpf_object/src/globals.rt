//! Values of global variables.

ghost use Rattle.std.specs.Prelude.{◌≡◌, ◌≢◌, None, IfErr, OnErr, OnOk};
ghost use Rattle.ebpf_items.specs.declared.error.ParseError.TheVariants.{OutOfMemory};
ghost use Rattle.global_data.specs.GlobalData.{Says, extents, first_fault, patched};
ghost use Rattle.global_data.specs.Kept.{KeepBytes};

use crate::object::Object;
use ebpf_items::ParseError;
use global_data::patch_map_data;
use settings::GlobalValues;

impl<'a> Object<'a> {
    /// Writes the values of global variables into the maps: [`patch_map_data`].
    ///
    /// # Errors
    ///
    /// Those of [`patch_map_data`]; the object is as before then.
    pub fn put_values(&mut self, values: &GlobalValues) -> Result<(), ParseError>
        ensures patched { OnOk result
            (self.new.maps ≡ patched self.old.file self.old.maps values.now) }
        ensures sound { OnOk result (first_fault self.old.file self.old.maps values.now ≡ None) }
        ensures lengths { extents self.new.maps ≡ extents self.old.maps }
        ensures kept { KeepBytes self.old.file values.now self.old.maps self.new.maps }
        ensures others { self.new ≡ record self.old { maps = self.new.maps } }
        ensures fault { IfErr result (λ e.
            e ≢ OutOfMemory → Says (first_fault self.old.file self.old.maps values.now) e) }
        ensures unchanged { OnErr result (self.new ≡ self.old) }
    {
        patch_map_data(self.alloc, &self.file, &mut self.maps, values)
    }
}
