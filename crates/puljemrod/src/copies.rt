// Items of a list, copied out as rows of C.
ghost use Rattle.std.specs.Prelude.{◌≡◌, ◌++◌, ◌≤◌, length, map, take, drop, min};

/// A row for an item. `common` is what all rows of a list share, such as the node of its commands.
pub trait Row<C, T>: Copy {
    ghost row_of: { C → T → Self };

    fn of(common: C, item: &T) -> Self
        ensures { result ≡ row_of common item.now };
}

/// Copies the items from `from` on, up to the end of the list or of `out`, and returns how many it
/// copied.
pub fn copy_rows<C: Copy, T, R: Row<C, T>>(
    common: C,
    items: &[T],
    from: usize,
    out: &mut [R],
) -> usize
    ensures count { result ≡ min (length out.old) (length (drop from items.now)) }
    ensures copied { out.new
        ≡ map (R.row_of common) (take result (drop from items.now)) ++ drop result out.old }
{
    if from >= items.len() {
        return 0;
    }
    let rest = &items[from..];
    let count = out.len().min(rest.len());
    write_rows(common, &rest[..count], out);
    count
}

fn write_rows<C: Copy, T, R: Row<C, T>>(common: C, items: &[T], out: &mut [R])
    requires { length items.now ≤ length out.old }
    ensures { out.new ≡ map (R.row_of common) items.now ++ drop (length items.now) out.old }
{
    for at in 0..items.len() {
        out[at] = R::of(common, &items[at]);
    }
}

/// As [`copy_rows`], with a contract that states the rows of the whole list.
pub fn copy_list<C: Copy, T, R: Row<C, T>>(
    common: C,
    items: &[T],
    from: usize,
    out: &mut [R],
) -> usize
    ensures count { result
        ≡ min (length out.old) (length (drop from (map (R.row_of common) items.now))) }
    ensures copied { out.new
        ≡ take result (drop from (map (R.row_of common) items.now)) ++ drop result out.old }
{
    copy_rows(common, items, from, out)
}
