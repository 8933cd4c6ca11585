//! Writing into the caller's buffers.
ghost use Rattle.std.specs.Prelude.{◌≡◌, List, [], ◌∷◌, ◌++◌, length};
ghost use Rattle.icu_zerovec.specs.Buffers.{written};

/// Writes the items to the start of a buffer, as many as fit. The rest of the buffer is unchanged.
pub(crate) fn write<T: Copy>(items: &[T], buffer: &mut [T])
    ensures { buffer.new ≡ written items.now buffer.old }
{
    let count = items.len().min(buffer.len());
    buffer[..count].copy_from_slice(&items[..count]);
}

/// Writes one more item to a buffer if it fits. `count` items come before it.
#[inline(always)]
pub(crate) fn put<T: Copy>(buffer: &mut [T], count: usize, item: T)
    ensures { (items all : List T) → count ≡ length items → buffer.old ≡ written items all
        → buffer.new ≡ written (items ++ item ∷ []) all }
{
    if count < buffer.len() {
        buffer[count] = item;
    }
}
