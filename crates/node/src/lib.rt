// A node of a word graph: 32 bits that hold a tile, two flags and an arc, in one of two layouts.
#![tactic(auto)]

ghost use Rattle.std.specs.Prelude.{◌≡◌};
ghost use Rattle.node.specs.Nodes.{kwg, kbwg, tile, accepts, accepts_bit, is_end, arc};
ghost use Rattle.node.specs.Said.{bit_layout, fields_of, values_of, does_not_fit, said_node, pack_answer, repack_node_answer};

use answers::Refuses;

#[derive(Clone, Copy, Debug, PartialEq, Eq)]
pub enum Layout {
    Kwg,
    Kbwg,
}

// What a node holds. The flags are two facts of their own: no value goes with either.
#[derive(Clone, Copy, Debug, PartialEq, Eq)]
pub struct Fields {
    pub tile: u8,
    pub accepts: bool,
    pub is_end: bool,
    pub arc_index: u32,
}

// The tile or the arc is too large for the layout.
#[derive(Clone, Copy, Debug, PartialEq, Eq)]
pub struct DoesNotFit {
    pub tile: u8,
    pub arc_index: u32,
}

impl Refuses for DoesNotFit {
    ghost refusal = { does_not_fit };

    fn number(&self) -> u32 {
        6
    }
}

// A KWG node. It and the KBWG node are two types with the same calls: callers write `Node24(v).tile()`, an alias of one generic type makes
// no value, and a trait's calls would want a `use` in every crate.
#[derive(Clone, Copy)]
pub struct Node22(pub u32);

impl Node22 {
    pub fn tile(self) -> u8
        ensures { result ≡ tile kwg self.0 }
    {
        (self.0 / 0x1000000) as u8
    }

    pub fn accepts(self) -> bool
        ensures { result ≡ accepts kwg self.0 }
    {
        self.0 / 0x800000 % 2 == 1
    }

    pub fn is_end(self) -> bool
        ensures { result ≡ is_end kwg self.0 }
    {
        self.0 / 0x400000 % 2 == 1
    }

    pub fn arc_index(self) -> u32
        ensures { result ≡ arc kwg self.0 }
    {
        self.0 % 0x400000
    }

    pub fn unpack(self) -> Fields
        ensures { result ≡ fields_of kwg self.0 }
    {
        Fields {
            tile: self.tile(),
            accepts: self.accepts(),
            is_end: self.is_end(),
            arc_index: self.arc_index(),
        }
    }

    #[tactic(auto, unfolding(crate::specs::Said::pack_answer, crate::specs::Nodes::fits))]
    pub fn pack(fields: Fields) -> Result<u32, DoesNotFit>
        ensures { said_node result ≡ pack_answer kwg (values_of fields) }
    {
        let Fields {
            tile,
            accepts,
            is_end,
            arc_index,
        } = fields;
        if 0x400000 <= arc_index {
            return Err(DoesNotFit { tile, arc_index });
        }
        let flags = u32::from(accepts) * 0x800000 + u32::from(is_end) * 0x400000;
        Ok(u32::from(tile) * 0x1000000 + flags + arc_index)
    }
}

// A KBWG node.
#[derive(Clone, Copy)]
pub struct Node24(pub u32);

impl Node24 {
    pub fn tile(self) -> u8
        ensures { result ≡ tile kbwg self.0 }
    {
        (self.0 % 0x40) as u8
    }

    pub fn accepts(self) -> bool
        ensures { result ≡ accepts kbwg self.0 }
    {
        self.0 / 0x80 % 2 == 1
    }

    // The flag as the number that word numbers go on by.
    pub fn accepts_bit(self) -> u32
        ensures { result ≡ accepts_bit kbwg self.0 }
    {
        self.0 / 0x80 % 2
    }

    pub fn is_end(self) -> bool
        ensures { result ≡ is_end kbwg self.0 }
    {
        self.0 / 0x40 % 2 == 1
    }

    pub fn arc_index(self) -> u32
        ensures { result ≡ arc kbwg self.0 }
    {
        self.0 / 0x100
    }

    pub fn unpack(self) -> Fields
        ensures { result ≡ fields_of kbwg self.0 }
    {
        Fields {
            tile: self.tile(),
            accepts: self.accepts(),
            is_end: self.is_end(),
            arc_index: self.arc_index(),
        }
    }

    #[tactic(auto, unfolding(crate::specs::Said::pack_answer, crate::specs::Nodes::fits))]
    pub fn pack(fields: Fields) -> Result<u32, DoesNotFit>
        ensures { said_node result ≡ pack_answer kbwg (values_of fields) }
    {
        let Fields {
            tile,
            accepts,
            is_end,
            arc_index,
        } = fields;
        if 0x40 <= tile || 0x1000000 <= arc_index {
            return Err(DoesNotFit { tile, arc_index });
        }
        let flags = u32::from(accepts) * 0x80 + u32::from(is_end) * 0x40;
        Ok(arc_index * 0x100 + flags + u32::from(tile))
    }
}

// What a node of this layout holds.
pub fn unpack(layout: Layout, node: u32) -> Fields
    ensures { result ≡ fields_of (bit_layout layout) node }
{
    match layout {
        Layout::Kwg => Node22(node).unpack(),
        Layout::Kbwg => Node24(node).unpack(),
    }
}

// A node of this layout that holds this.
pub fn pack(layout: Layout, fields: Fields) -> Result<u32, DoesNotFit>
    ensures { said_node result ≡ pack_answer (bit_layout layout) (values_of fields) }
{
    match layout {
        Layout::Kwg => Node22::pack(fields),
        Layout::Kbwg => Node24::pack(fields),
    }
}

// A node of one layout in the other.
pub fn repack_node(from: Layout, to: Layout, node: u32) -> Result<u32, DoesNotFit>
    ensures { said_node result ≡ repack_node_answer (bit_layout from) (bit_layout to) node }
{
    pack(to, unpack(from, node))
}
