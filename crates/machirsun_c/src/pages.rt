// Pages of words for the text service.
ghost use Rattle.std.specs.Prelude.{◌≡◌};
ghost use Rattle.page.specs.Rows.{page_widths};
ghost use Rattle.page.specs.Page.{write_page};
ghost use Rattle.flat.specs.FlatPages.{page_of};

// Writes a page of the words from the start with the numbers from the first one on; answers the number of the refusal, or 0.
#[unsafe(no_mangle)]
pub extern "C" fn machirsun_write_page(
    nodes: &[u32],
    counts: &[u32],
    labels: &[u32],
    title: &[u8],
    start: u32,
    first: u32,
    page: &mut [u8],
) -> u32
    ensures { page_of result page.new
        ≡ write_page page_widths nodes.now counts.now labels.now title.now start first page.old }
{
    machirsun::machirsun_write_page(nodes, counts, labels, title, start, first, page)
}
