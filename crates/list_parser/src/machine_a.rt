//! The built-in machine.
ghost use Rattle.std.specs.Prelude.{◌≡◌, Ok};
ghost use Rattle.list_parser.specs.StartText.{list_in};
ghost use Rattle.own_model.specs.MachineA.{machine_a};

/// The text of the built-in machine's start list: two servers and two scripts.
pub const MACHINE_A: &str = r#"{"machine":{"pages":64,"caps":64},
 "default-route":[{"any-service":true,"any-child":true}],
 "start":[
  {"name":"log","quantum":"16K","caps":8,"provides":["LOG"]},
  {"name":"files","quantum":"16K","caps":8,"provides":["File_system"]},
  {"name":"alice","binary":"script","quantum":"64K","caps":16},
  {"name":"bob","binary":"script","quantum":"64K","caps":16}]}"#;

/// States that the text is read as the start list that the model has for the machine.
pub fn machine_a_is_read()
    ensures { list_in MACHINE_A.now ≡ Ok machine_a }
{}
