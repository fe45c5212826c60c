//! A theorem for callers: an account that covers a session's capabilities finds a place for another account. It does
//! nothing at run time.
ghost use Rattle.dataspace_core.specs.Room.{RoomAtFirst, RoomForOneMore, RoomStays, RoomIsTaken, RoomUnderHead};
ghost use Rattle.dataspace_core.specs.Room.{RoomIsRaised, RoomIsShifted, RoomIsGivenBack, RoomAfterExit};

/// States that one more account finds a place whenever its parent covers two capabilities, and that all calls keep this.
/// It assumes half as many places for accounts as the machine has capabilities. It also assumes that each account opened
/// under another account than a head has two capabilities. A head is an account under which components are opened: an
/// init's.
pub fn accounts_find_places()
    ensures first { RoomAtFirst }
    ensures more { RoomForOneMore }
    ensures stays { RoomStays }
    ensures taken { RoomIsTaken }
    ensures under_head { RoomUnderHead }
    ensures raised { RoomIsRaised }
    ensures shifted { RoomIsShifted }
    ensures given_back { RoomIsGivenBack }
    ensures after_exit { RoomAfterExit }
{}
