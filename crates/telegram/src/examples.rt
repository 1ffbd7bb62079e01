ghost use Rattle.std.specs.Prelude.{◌≡◌};
ghost use Rattle.telegram.specs.Examples.{halt_bytes, Edges, MoreEdges};

/// The bytes of a telegram with one order: text 7, to be acknowledged, with the words Halt.
///
/// Its contract also says how a telegram of each other order, and one of each refusal, is read.
pub fn halt_telegram() -> [u8; 8]
    ensures bytes { result ≡ halt_bytes }
    ensures edges { Edges }
    ensures more { MoreEdges }
{
    [0x30, 0x08, 0x07, 0x80, 0x48, 0x61, 0x6c, 0x74]
}
