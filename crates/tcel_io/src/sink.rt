ghost use Rattle.std.specs.Prelude.{◌≡◌, [], IsOk, OnOk, OnErr};
ghost use Rattle.tcel_io.specs.Seen.{IsCutOff, IsReachTold, IsTaken, Seen};

/// The sink couldn't take a whole piece.
#[derive(Clone, Copy, Debug, PartialEq, Eq)]
pub struct SinkFault;

/// A stream that text is put into, piece by piece (docs/commands.md, "Files and streams").
pub trait Sink {
    // What is seen of it: the bytes taken, the faults and the puts so far, and their reach.
    ghost seen: { Self → Seen };

    /// Takes the piece. After a fault a prefix of the piece was taken. A put of an empty piece changes
    /// nothing and isn't counted. No memory is taken.
    fn put(&mut self, piece: &[u8]) -> Result<(), SinkFault>
        ensures taken { OnOk result (IsTaken piece.now (seen self.old) (seen self.new)) }
        ensures cut_off { OnErr result (IsCutOff piece.now (seen self.old) (seen self.new)) }
        ensures empty { piece.now ≡ [] → IsOk result };

    // The reach is told only where the bytes taken are.
    ghost reach_told: { (sink : Self) → IsReachTold (seen sink) };
}
