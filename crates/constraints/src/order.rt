// Which of two rows goes first. All that compares rows asks here.
ghost use Rattle.std.specs.Prelude.{◌≡◌};
ghost use Rattle.laws.specs.Earlier.{row_before};

// Row a goes before row b: it is the newer.
pub(crate) fn comes_first(a: u16, b: u16) -> bool
    ensures { result ≡ row_before a b }
{
    b < a
}
