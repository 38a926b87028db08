// What a call says of a block. The calls of document 01 and the entries for C are promised with these numbers one by one; beneath them they go together.
ghost use Rattle.std.specs.Prelude.{◌≡◌, true, ◌≤◌};
ghost use Rattle.arena.specs.Numbers.{most};
ghost use Rattle.arena.specs.Sound.{allowed_align};

// A block's size and alignment.
#[derive(Clone, Copy)]
pub struct Layout {
    pub size: usize,
    pub align: usize,
}

// A block as a call names it: any 64-bit numbers, which are tested before they are used.
#[derive(Clone, Copy)]
pub struct Block {
    pub offset: usize,
    pub layout: Layout,
}

// A size and an alignment that are known to be allowed.
#[derive(Clone, Copy)]
pub struct Allowed {
    pub layout: Layout,
    ghost size: { layout.size ≤ most },
    ghost align: { allowed_align layout.align ≡ true },
}
