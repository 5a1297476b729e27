//! How often something was told at each port.

use wires::{Host, NEWS_LIMIT};

/// At how many ports that is counted.
pub(crate) const MOST_PORTS: usize = 256;

/// Counts what a host learned last, at the port of each.
pub(crate) fn count_news<H: Host>(host: &H, told: &mut [u64]) {
    for nth in 0..NEWS_LIMIT {
        let Some(news) = host.news(nth) else {
            return;
        };
        if let Some(count) = told.get_mut(news.place) {
            *count = count.wrapping_add(1);
        }
    }
}
