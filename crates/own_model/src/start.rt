//! Theorems on the start: each machine that boots is balanced, and machine A boots.
ghost use Rattle.std.specs.Prelude.{◌≡◌, codes, Some, None};
ghost use Rattle.own_model.specs.Account.{opened};
ghost use Rattle.own_model.specs.Theorems.{BootsBalanced};
ghost use Rattle.own_model.specs.Offer.Offer.{OffersLog, OffersFiles};
ghost use Rattle.own_model.specs.Routes.{provider};
ghost use Rattle.own_model.specs.Listed.{levels_within, most_lists};
ghost use Rattle.own_model.specs.MachineA.{alice, machine_a};
ghost use Rattle.own_model.specs.Rows.{start_of_a};
ghost use Rattle.own_model.specs.StartList.{Boots};
ghost use Rattle.own_model.specs.World.{IsBalancedFor, machine_init, start_world};

/// States that a start list that boots distributes all limits of the machine. Each component gets its budget, each init
/// has the rest, and nothing is in use.
pub fn boots_balanced()
    ensures { BootsBalanced }
{}

/// States that machine A boots: init covers each budget in order, and retains 96 KiB and 16 capabilities.
pub fn machine_a_boots()
    ensures covered { Boots start_of_a }
    ensures balanced { IsBalancedFor start_of_a (start_world start_of_a) }
    ensures kept { machine_init (start_world start_of_a) ≡ opened 98304 16 }
{}

/// States how machine A's routes resolve requests of `alice` with the label `main`: `LOG` and `File_system` to their
/// servers, and `Nic` to none.
pub fn services_are_routed()
    ensures log { provider (levels_within most_lists machine_a alice) (codes "LOG") (codes "main")
        ≡ Some (record { kind = OffersLog; place = 0 }) }
    ensures files { provider (levels_within most_lists machine_a alice) (codes "File_system")
        (codes "main") ≡ Some (record { kind = OffersFiles; place = 1 }) }
    ensures others { provider (levels_within most_lists machine_a alice) (codes "Nic")
        (codes "main")
        ≡ None }
{}
