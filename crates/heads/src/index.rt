// The index of the heads: the number of each role that is the head of some credential.
ghost use Rattle.std.specs.Prelude.{◌≡◌, ◌+◌, ◌<◌, ◌≤◌, [], List, length};
ghost use Rattle.credential.specs.declared.Role.{Role as AnyRole};
ghost use Rattle.heads.specs.Enrolled.{RoleIn};
ghost use Rattle.heads.specs.Slots.{slot, number_in};

use credential::Role;

// A slot for each of 64 entities and 32 role names.
pub const HEAD_SLOTS: usize = 2048;

// In a slot of plain numbers: the role is no head. A number and no Option, for callers whose numbers lie so.
pub const NO_HEAD: u16 = 65_535;

const ROLE_NAMES: usize = 32;

// The number of each head in its slot, and how many heads there are. The slots are an array, since no
// decision may want memory.
#[derive(Drop)]
pub struct HeadIndex {
    numbers: [Option<u16>; HEAD_SLOTS],
    count: usize,
}

fn slot_of(role: Role) -> usize
    ensures { result ≡ slot role }
{
    role.entity.0 as usize * ROLE_NAMES + role.name.0 as usize
}

// The number of a head by plain numbers, one in each slot, if the role is one.
pub fn head_of(numbers: &[u16], role: Role) -> Option<u16>
    requires long { length numbers.now ≡ 2048 }
    requires known { RoleIn 64 role }
    ensures { result ≡ number_in numbers.now role }
{
    let h = numbers[slot_of(role)];
    if h == NO_HEAD { None } else { Some(h) }
}

impl HeadIndex {
    ghost use Rattle.heads.specs.Index.{Indexed, head_at, head_count, noted};

    pub fn new() -> HeadIndex
        ensures { Indexed result [] }
    {
        HeadIndex {
            numbers: [None; HEAD_SLOTS],
            count: 0,
        }
    }

    // How many heads there are.
    pub fn count(&self) -> usize
        ensures { result ≡ head_count self.now }
    {
        self.count
    }

    // The number of a head, if the role is one. How many are enrolled is no fact about a role alone, so no type
    // of roles carries it.
    pub fn head_of(&self, role: Role) -> Option<u16>
        requires known { RoleIn 64 role }
        ensures { result ≡ head_at self.now role }
    {
        self.numbers[slot_of(role)]
    }

    // Gives a role the next number, unless it has one.
    pub fn note(&mut self, head: Role)
        requires room { head_count self.old < 65536 }
        requires known { RoleIn 64 head }
        ensures { (rs : List AnyRole) → Indexed self.old rs → Indexed self.new (noted rs head) }
    {
        let HeadIndex { numbers, count } = self;
        let slot = &mut numbers[slot_of(head)];
        if slot.is_none() {
            *slot = Some(*count as u16);
            *count += 1;
        }
    }
}
