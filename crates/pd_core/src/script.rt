//! A script and its calls: what each does to its account, capabilities, regions and memory.

ghost use Rattle.std.specs.Prelude.{◌≡◌, ◌≤◌};
ghost use Rattle.std.specs.Option.{option_map};
ghost use Rattle.own_model.specs.Region.{resolved};

use crate::accounts::quotas_of;
use crate::bytes::{MOST_BYTES, put_hex, write_range};
use crate::call_value::{CallValue, tell};
use cap_space::{Cap, CapSpace};
use core_calls::{Call, Quotas, Reply};
use dataspace_core::Memory;
use heap_core::Heap;
use region_map::{HEAP_LOW, RegionMap};
use sliced_heap::SlicedHeap;
use trade_base::{AccountId, DsId, Refusal};

/// A script: the account that it is charged on, the account of its reserve, its capabilities, its regions, its heap and its
/// sliced heap. Nothing of the reserve is ever in use.
#[derive(Drop)]
pub(crate) struct Script {
    pub(crate) account: AccountId,
    pub(crate) reserve: AccountId,
    pub(crate) caps: CapSpace,
    pub(crate) regions: RegionMap,
    pub(crate) heap: Heap,
    pub(crate) sliced: SlicedHeap,
}

impl Script {
    ghost use Rattle.std.specs.Prelude.{◌≡◌, ◌*◌, ◌≤◌, Some, IfOk, IsSome};
    ghost use Rattle.std.specs.Result.{result_err};
    ghost use Rattle.std.specs.FinMap.{get};
    ghost use Rattle.own_model.specs.Call.Call.{Alloc as ModelledAlloc, Free as ModelledFree, Attach as ModelledAttach};
    ghost use Rattle.own_model.specs.Call.Call.{AttachAt as ModelledAttachAt, Detach as ModelledDetach, Peek as ModelledPeek};
    ghost use Rattle.own_model.specs.Call.Call.{Capalloc as ModelledCapalloc, Capfree as ModelledCapfree};
    ghost use Rattle.own_model.specs.Call.Call.{New as ModelledNew, Del as ModelledDel, Snew as ModelledSnew, Sdel as ModelledSdel};
    ghost use Rattle.own_model.specs.Text.{bytes_of_hex};
    ghost use Rattle.dataspace_core.specs.Store.{account_in, ram_limits_in};
    ghost use Rattle.pd_core.specs.Answer.{quotas_account, reply_of};
    ghost use Rattle.core_calls.specs.Call.{model_call, bytes_in};
    ghost use Rattle.pd_core.specs.Does.{Does, DoesPoke, DoesWithText, CanDo};
    ghost use Rattle.pd_core.specs.Own.{part_at, own_heap_at, sliced_at, lent_in, sized_at, range_refusal, IsFound};
    ghost use Rattle.pd_core.specs.Sound.{IsSoundScript, SparesOthers, Keeps};

    /// Carries out a call that is neither of sessions, nor of the reserve, nor an exit, and sets the reply to the result.
    /// The arms share one place for their outcomes, which a function clears when it is entered.
    pub(crate) fn step(&mut self, memory: &mut Memory, call: Call<'_>, reply: &mut Reply)
        requires { CanDo call memory.old self.old }
        ensures outcome { DoesWithText (model_call call.entry) reply.new
            memory.old self.old memory.new self.new }
        ensures keeps { Keeps memory.old self.old memory.new self.new }
        ensures others { SparesOthers self.old.account.0 self.old.caps.caps memory.old memory.new }
    {
        let outcome = match call {
            Call::Alloc(bytes) => self.alloc(memory, bytes),
            Call::Free(selector) => self.free(memory, selector),
            Call::Attach(selector) => self.attach(memory, selector),
            Call::AttachAt { selector, address } => self.attach_at(memory, selector, address),
            Call::Detach(address) => self.detach(memory, address),
            Call::Peek { address, count } => return self.peek(memory, address, count, reply),
            Call::Poke { address, hex } => self.poke(memory, address, hex),
            Call::Capalloc => self.capalloc(memory),
            Call::Capfree(selector) => self.capfree(memory, selector),
            Call::New(bytes) => self.new_block(memory, bytes),
            Call::Del(address) => self.del_block(memory, address),
            Call::Snew(bytes) => self.snew(memory, bytes),
            Call::Sdel(address) => self.sdel(memory, address),
            Call::Quota => Ok(CallValue::Quotas(self.quota(memory))),
            _ => unreachable!(),
        };
        tell(outcome, reply);
    }

    /// Allocates a dataspace under a new selector. Refuses with `InvalidSize`, then `OutOfRam`, then `OutOfCaps`.
    fn alloc(&mut self, memory: &mut Memory, bytes: u64) -> Result<CallValue, Refusal>
        requires { IsSoundScript memory.old self.old }
        ensures { Does (ModelledAlloc bytes) (reply_of result)
            memory.old self.old memory.new self.new }
    {
        let space = memory.alloc(self.account, bytes)?;
        Ok(CallValue::Selected(self.caps.insert(Cap::Dataspace(space))))
    }

    /// Frees the dataspace that the selector names, with its regions. Refuses with `InvalidCap` if it names none.
    pub(crate) fn free(&mut self, memory: &mut Memory, selector: u64) -> Result<CallValue, Refusal>
        requires { IsSoundScript memory.old self.old }
        ensures { Does (ModelledFree selector) (reply_of result)
            memory.old self.old memory.new self.new }
    {
        let Some(space) = self.caps.take_dataspace(selector) else {
            return Err(Refusal::InvalidCap);
        };
        self.regions.detach_all(space);
        memory.free(space);
        Ok(CallValue::Done)
    }

    /// Allocates an RPC object under a new selector. Refuses with `OutOfCaps`.
    fn capalloc(&mut self, memory: &mut Memory) -> Result<CallValue, Refusal>
        requires { IsSoundScript memory.old self.old }
        ensures { Does ModelledCapalloc (reply_of result)
            memory.old self.old memory.new self.new }
    {
        memory.charge_cap(self.account)?;
        Ok(CallValue::Selected(self.caps.insert(Cap::RpcObject)))
    }

    /// Frees the RPC object that the selector names. Refuses with `InvalidCap` if it names none.
    pub(crate) fn capfree(
        &mut self,
        memory: &mut Memory,
        selector: u64,
    ) -> Result<CallValue, Refusal>
        requires { IsSoundScript memory.old self.old }
        ensures { Does (ModelledCapfree selector) (reply_of result)
            memory.old self.old memory.new self.new }
    {
        if !self.caps.take_rpc_object(selector) {
            return Err(Refusal::InvalidCap);
        }
        memory.credit_cap(self.account);
        Ok(CallValue::Done)
    }

    /// Attaches the dataspace that a selector names at the first gap. Refuses with `InvalidCap`, then `TooManyRegions`, then
    /// `RegionConflict`.
    fn attach(&mut self, memory: &Memory, selector: u64) -> Result<CallValue, Refusal>
        requires { IsSoundScript memory.now self.old }
        ensures { Does (ModelledAttach selector) (reply_of result)
            memory.now self.old memory.now self.new }
    {
        let (space, pages) = self.dataspace(memory, selector)?;
        let address = self.regions.attach(space, pages)?;
        Ok(CallValue::Attached(address))
    }

    /// Attaches the dataspace that a selector names at an address.
    fn attach_at(
        &mut self,
        memory: &Memory,
        selector: u64,
        address: u64,
    ) -> Result<CallValue, Refusal>
        requires { IsSoundScript memory.now self.old }
        ensures { Does (ModelledAttachAt selector address) (reply_of result)
            memory.now self.old memory.now self.new }
    {
        let (space, pages) = self.dataspace(memory, selector)?;
        let address = self.regions.attach_at(space, pages, address)?;
        Ok(CallValue::Attached(address))
    }

    /// Detaches the region that starts at an address. Refuses with `PageFault` if none does.
    fn detach(&mut self, memory: &Memory, address: u64) -> Result<CallValue, Refusal>
        requires { IsSoundScript memory.now self.old }
        ensures { Does (ModelledDetach address) (reply_of result)
            memory.now self.old memory.now self.new }
    {
        self.regions.detach(address)?;
        Ok(CallValue::Done)
    }

    /// Reads `count` bytes from an address on into the reply. Refuses with `InvalidSize` for 0 or more than 1024 bytes. Then
    /// refuses with `PageFault` if no region, no sliced block's payload and no payload of the heap holds them all.
    fn peek(&self, memory: &mut Memory, address: u64, count: u64, reply: &mut Reply)
        requires { IsSoundScript memory.old self.now }
        ensures outcome { DoesWithText (ModelledPeek address count) reply.new
            memory.old self.now memory.new self.now }
        ensures memory { memory.new ≡ memory.old }
    {
        match self.range(memory, address, count) {
            Ok((space, offset)) => write_range(reply, memory, space, offset, count as usize),
            Err(refusal) => reply.write_refusal(refusal),
        }
    }

    /// Writes the bytes that hexadecimal digits denote from an address on, also into a session's buffer. Refuses as `peek`
    /// does.
    fn poke(&self, memory: &mut Memory, address: u64, hex: &[u8]) -> Result<CallValue, Refusal>
        requires hex { IsSome (bytes_of_hex hex.now) }
        requires sound { IsSoundScript memory.old self.now }
        ensures { DoesPoke address (bytes_in hex.now) (reply_of result)
            memory.old self.now memory.new }
    {
        let count = hex.len() / 2;
        let (space, offset) = self.range(memory, address, count as u64)?;
        put_hex(memory, space, offset, hex);
        Ok(CallValue::Done)
    }

    /// Allocates a block of the heap for this number of bytes. Refuses with `InvalidSize`. Then, if the heap must grow and
    /// cannot, refuses with `TooManyChunks`, then `OutOfRam`, then `OutOfCaps`.
    fn new_block(&mut self, memory: &mut Memory, bytes: u64) -> Result<CallValue, Refusal>
        requires { IsSoundScript memory.old self.old }
        ensures { Does (ModelledNew bytes) (reply_of result)
            memory.old self.old memory.new self.new }
    {
        let address = self.heap.alloc(memory, &mut self.regions, bytes)?;
        Ok(CallValue::Attached(address))
    }

    /// Frees the block of the heap whose payload starts at an address. Refuses with `PageFault` if none does.
    fn del_block(&mut self, memory: &mut Memory, address: u64) -> Result<CallValue, Refusal>
        requires { IsSoundScript memory.old self.old }
        ensures { Does (ModelledDel address) (reply_of result)
            memory.old self.old memory.new self.new }
    {
        self.heap.free(memory, &mut self.regions, address)?;
        Ok(CallValue::Done)
    }

    /// Allocates a sliced block for this number of bytes. Refuses with `InvalidSize`, then `OutOfRam`, then `OutOfCaps`.
    fn snew(&mut self, memory: &mut Memory, bytes: u64) -> Result<CallValue, Refusal>
        requires { IsSoundScript memory.old self.old }
        ensures { Does (ModelledSnew bytes) (reply_of result)
            memory.old self.old memory.new self.new }
    {
        let address = self.sliced.alloc(memory, &mut self.regions, bytes)?;
        Ok(CallValue::Attached(address))
    }

    /// Frees the sliced block whose payload starts at an address. Refuses with `PageFault` if none does.
    fn sdel(&mut self, memory: &mut Memory, address: u64) -> Result<CallValue, Refusal>
        requires { IsSoundScript memory.old self.old }
        ensures { Does (ModelledSdel address) (reply_of result)
            memory.old self.old memory.new self.new }
    {
        self.sliced.free(memory, &mut self.regions, address)?;
        Ok(CallValue::Done)
    }

    /// Returns the use and the limits of the account.
    fn quota(&self, memory: &Memory) -> Quotas
        requires { IsSoundScript memory.now self.now }
        ensures { quotas_account result ≡ account_in memory.now self.now.account.0 }
    {
        quotas_of(memory, self.account)
    }

    /// Returns the dataspace that a selector names, its own or a buffer's, with its pages. Refuses with `InvalidCap` if it
    /// names none.
    fn dataspace(&self, memory: &Memory, selector: u64) -> Result<(DsId, u64), Refusal>
        requires { IsSoundScript memory.now self.now }
        ensures sized { result
            ≡ sized_at (lent_in memory.now) (part_at memory.now self.now)
            (get self.now.caps.caps selector) }
        ensures few { IfOk result (λ found. found.1 * 4096 ≤ ram_limits_in memory.now) }
    {
        match self.caps.get(selector) {
            Some(Cap::Dataspace(space)) => Ok((space, memory.pages(space))),
            Some(Cap::Buffer { space, .. }) => Ok((space, memory.pages(space))),
            _ => Err(Refusal::InvalidCap),
        }
    }

    /// Finds the dataspace that holds `count` bytes from an address on, and the offset in it. They must be whole in one
    /// region, in one sliced block's payload or in one payload of the heap. Refuses with `InvalidSize`, then `PageFault`.
    fn range(&self, memory: &mut Memory, address: u64, count: u64) -> Result<(DsId, u64), Refusal>
        requires { IsSoundScript memory.old self.now }
        ensures refusal { result_err result ≡ range_refusal
            self.now.regions.user (sliced_at memory.old self.now) (own_heap_at memory.old self.now)
            address count }
        ensures found { IfOk result (λ at. IsFound memory.old self.now address count at.0.0 at.1) }
        ensures memory { memory.new ≡ memory.old }
    {
        if count == 0 || count > MOST_BYTES as u64 {
            return Err(Refusal::InvalidSize);
        }
        if let Some(found) = user_range(&self.regions, address, count) {
            return Ok(found);
        }
        if let Some(found) = self.sliced.block_of(memory, &self.regions, address, count) {
            return Ok(found);
        }
        self.heap
            .block_of(memory, &self.regions, address, count)
            .ok_or(Refusal::PageFault)
    }
}

/// Returns the dataspace and the offset of a range that one user region holds, or `None` if none does. A region of the heap
/// window is a heap's, and only the heap knows the payloads in it.
fn user_range(regions: &RegionMap, address: u64, count: u64) -> Option<(DsId, u64)>
    requires { 1 ≤ count }
    ensures { option_map (λ at. (at.0.0, at.1)) result
        ≡ resolved regions.now.user address count }
{
    if address < HEAP_LOW {
        regions.resolve(address, count)
    } else {
        regions.lies_apart();
        None
    }
}
