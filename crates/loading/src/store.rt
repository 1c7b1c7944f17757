// Storing a file that was read: each part is copied to its place in the image. Nothing is tested here; what reading found is required.
ghost use Rattle.plan.specs.Limits.{image_size};
ghost use Rattle.std.specs.Prelude.{◌≡◌, ℕ, ◌+◌, ◌*◌, ◌<◌, ◌≤◌, length, get_or, set, List};
ghost use Rattle.loading.specs.Storing.{list_end, copy_list, route_end, copy_route, copy_routes, entry_end, copy_entry, copy_entries, IsCopy, StepsRoom, copied, ListRoom, RouteRoom, RoutesRoom, EntryRoom, EntriesRoom};

use plan::limits::{
    CLEAR_AT, ENTRIES_AT, ENTRY_CLEAR_AT, ENTRY_SIZE, IMAGE, NORMAL_AT, PATH_AT, RELEASE_SIZE,
    RELEASES_AT, REVERSE_AT, ROUTE_SIZE, ROUTES_AT,
};

// Things of one size with their count before them: hands back where they end. Copied one by one, as `lists::put_bytes` does and says why.
pub fn store_list(file: &[u8], at: usize, size: usize, image: &mut [u8; IMAGE], to: usize) -> usize
    requires { ListRoom size file.now at to }
    ensures { (result ≡ list_end size file.now at) × (image.new ≡ copy_list size file.now at to image.old) }
{
    let bytes = 1 + size * usize::from(file[at]);
    for i in 0..bytes {
        image[to + i] = file[at + i];
    }
    at + bytes
}

// A route, into its record: hands back where it ends.
fn store_route(file: &[u8], at: usize, image: &mut [u8; IMAGE], to: usize) -> usize
    requires { RouteRoom file.now at to }
    ensures { (result ≡ route_end file.now at) × (image.new ≡ copy_route file.now at to image.old) }
{
    image[to] = file[at];
    let clear_from = store_list(file, at + 1, 1, image, to + PATH_AT);
    let normal_from = store_list(file, clear_from, 1, image, to + CLEAR_AT);
    let reverse_from = store_list(file, normal_from, 1, image, to + NORMAL_AT);
    let releases_from = store_list(file, reverse_from, 1, image, to + REVERSE_AT);
    store_list(file, releases_from, RELEASE_SIZE, image, to + RELEASES_AT)
}

// An entry, into its record: hands back where it ends.
#[tactic(auto, unfolding(crate::specs::Storing::entry_end, crate::specs::Storing::copy_entry))]
fn store_entry(file: &[u8], at: usize, image: &mut [u8; IMAGE], to: usize) -> usize
    requires { EntryRoom file.now at to }
    ensures { (result ≡ entry_end file.now at) × (image.new ≡ copy_entry file.now at to image.old) }
{
    image[to] = file[at];
    store_list(file, at + 1, 1, image, to + ENTRY_CLEAR_AT)
}

// Parts with their count before them, each into its record: a step stores the one that stands at an offset of the file, and hands back where it ends.
fn store_parts<F: Fn(usize, &mut [u8; IMAGE], usize) -> usize>(
    file: &[u8],
    from: usize,
    image: &mut [u8; IMAGE],
    to: usize,
    size: usize,
    store: F,
)
    requires count { from < length file.now }
    requires place { to < image_size }
    requires fits { to + size * 256 ≤ usize.MAX }
    requires rooms { StepsRoom (F.pre store) (F.post store) size (get_or file.now from 0) (from + 1) (to + 1) }
    ensures { (end : ℕ → ℕ) (copy : ℕ → ℕ → List ℕ → List ℕ) → IsCopy (F.post store) end copy → image.new ≡ copied end copy size (get_or file.now from 0) (from + 1) (to + 1) (set image.old to (get_or file.now from 0)) }
{
    image[to] = file[from];
    let mut at = from + 1;
    for i in 0..usize::from(file[from]) {
        at = store(at, image, to + 1 + size * i);
    }
}

// Section 3: the routes.
pub fn store_routes(file: &[u8], from: usize, image: &mut [u8; IMAGE])
    requires { RoutesRoom file.now from }
    ensures { image.new ≡ copy_routes file.now from image.old }
{
    store_parts(file, from, image, ROUTES_AT, ROUTE_SIZE, |at, image, to| {
        store_route(file, at, image, to)
    });
}

// Section 4: the entries.
pub fn store_entries(file: &[u8], from: usize, image: &mut [u8; IMAGE])
    requires { EntriesRoom file.now from }
    ensures { image.new ≡ copy_entries file.now from image.old }
{
    store_parts(file, from, image, ENTRIES_AT, ENTRY_SIZE, |at, image, to| {
        store_entry(file, at, image, to)
    });
}
