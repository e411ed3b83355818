// A network that a judge has taken.
ghost use Rattle.network.specs.Faults.{Sound};

// The number of stations and the line list of a network, within the limits and simple.
#[derive(Clone, Copy)]
pub struct SoundNetwork<'a> {
    pub n: usize,
    pub lines: &'a [u16],
    pub ghost sound: { Sound n lines.now },
}
