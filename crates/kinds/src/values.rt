// Values that a kind compares.
ghost use Rattle.kinds.specs.Values.{taken, texts_differ};
ghost use Rattle.std.specs.Prelude.{◌≡◌};

use fields::text::Text;

// Public, so it stays for those who call it; each `marks` says `!=` itself.
pub fn texts_differ<const N: usize>(older: &Text<N>, newer: &Text<N>) -> bool
    ensures { result ≡ texts_differ older.now newer.now }
{
    older != newer
}

// The newer value where its flag counts 3, else the older one.
pub(crate) fn taken<T: Copy>(flag: bool, newer: T, older: T) -> T
    ensures { result ≡ taken flag newer older }
{
    if flag { newer } else { older }
}
