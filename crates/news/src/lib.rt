//! The status byte of one side of a mailbox, which is latched: what is told when something comes into an empty way, and until when.
#![tactic(auto)]

ghost use Rattle.std.specs.Prelude.{◌≡◌};
ghost use Rattle.news.specs.News.{no_news, come, sent_status, returned, news_byte};

// request: service is requested. available: something came that no status byte has told. again: it came since a status byte was sent.
#[derive(Clone, Copy, Default)]
pub struct News {
    pub request: bool,
    pub available: bool,
    pub again: bool,
}

// Nothing is told.
pub fn none() -> News
    ensures { result ≡ no_news }
{
    News::default()
}

// Something has come into an empty way.
pub fn came() -> News
    ensures { result ≡ come }
{
    News {
        request: true,
        available: true,
        again: true,
    }
}

// The status byte that tells it.
#[tactic(auto, unfolding(crate::specs::News::news_byte))]
pub fn byte_of(n: News) -> u8
    ensures { result ≡ news_byte n }
{
    64 * u8::from(n.request) + u8::from(n.available)
}

// A status byte has been sent on the loop.
pub fn sent(n: News) -> News
    ensures { result ≡ sent_status n }
{
    News {
        request: false,
        again: false,
        ..n
    }
}

// The status byte d that was sent on the loop has come back unchanged.
pub fn returned(n: News, d: u8) -> News
    ensures { result ≡ returned n d }
{
    News {
        available: n.available & !((d % 2 == 1) & !n.again),
        ..n
    }
}
