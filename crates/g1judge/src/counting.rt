ghost use Rattle.std.specs.Prelude.{◌≡◌, ℕ, List};
ghost use Rattle.g1_words.specs.Heap.{Heap};
ghost use Rattle.g1_same.specs.Same.{IsRenaming};
ghost use Rattle.g1judge.specs.Judged.{words_of};

use g1_words::Heap;

/// The words of all objects that are renamed.
pub fn words(heap: &Heap, renamed: &[u64]) -> u64
    requires { (h : Heap) × (news : List ℕ) × IsRenaming heap.now h renamed.now news }
    ensures { result ≡ words_of heap.now renamed.now }
{
    let all = heap.words();
    let mut words = 0;
    for address in renamed {
        words += all.header(*address).size;
    }
    words
}
