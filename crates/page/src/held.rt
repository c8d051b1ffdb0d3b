// The words that the walks of a page's rows found.
ghost use Rattle.page.specs.Held.{IsHeld};

// The first word's number, the words' tiles one after the other, and the size of each: how many tiles it has, or one more than there are
// columns. So `min` says how many of them are shown, and a comparison whether there are more.
#[derive(Clone, Copy)]
pub struct Held<'a> {
    pub first: u32,
    pub tiles: &'a [u8],
    pub sizes: &'a [usize],
    pub ghost fit: { IsHeld first tiles.now sizes.now },
}
