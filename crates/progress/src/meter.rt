// What has gone through, and when it is shown.
use crate::pace::Mark;
use crate::screen::Screen;
use std::alloc::Global;
use std::io::Write;
use std::sync::Mutex;
use std::sync::atomic::{AtomicBool, AtomicU64, Ordering};
use std::time::Clock;

// How long a line stands at least, and how long the work goes on before the first one, in milliseconds.
const PAUSE: u64 = 500;

/// What has gone through the objects of a run, shown on a terminal. Several threads may tell it of their objects.
#[derive(Drop)]
pub struct Meter<C, T> {
    clock: C,
    bytes: AtomicU64,
    place: AtomicU64,
    length: AtomicU64,
    // when a line may be drawn next, in milliseconds of the clock
    due: AtomicU64,
    // whether a line stands on the terminal
    stands: AtomicBool,
    screen: Option<Mutex<Screen<T>>>,
}

impl<C: Clock, T: Write + Drop> Meter<C, T> {
    /// Shows nothing where there is no terminal.
    pub fn new(alloc: Global, clock: C, terminal: Option<T>) -> Meter<C, T> {
        let start = milliseconds(&clock).unwrap_or(0);
        let screen = match terminal {
            Some(terminal) => Some(Mutex::new(Screen::new(alloc, terminal, start))),
            None => None,
        };
        Meter {
            clock,
            bytes: AtomicU64::new(0),
            place: AtomicU64::new(0),
            length: AtomicU64::new(0),
            due: AtomicU64::new(start.saturating_add(PAUSE)),
            stands: AtomicBool::new(false),
            screen,
        }
    }

    /// Whether anything is shown.
    pub fn is_on(&self) -> bool {
        self.screen.is_some()
    }

    /// How long parity is, in bytes.
    pub fn set_length(&self, length: u64) {
        self.length.store(length, Ordering::SeqCst);
    }

    /// Takes the line away until it is drawn again, so that something else can be printed.
    pub fn clear(&self) {
        if !self.stands.load(Ordering::SeqCst) {
            return;
        }
        if let Some(screen) = &self.screen
            && let Some(mut screen) = screen.try_lock()
        {
            screen.clear();
            self.stands.store(false, Ordering::SeqCst);
        }
    }

    // So many bytes were read, and the work has come to this place in parity: it is shown, where the last line is old.
    pub(crate) fn tell(&self, bytes: u64, place: u64) {
        self.bytes.fetch_add(bytes, Ordering::SeqCst);
        if place > self.place.load(Ordering::SeqCst) {
            self.place.store(place, Ordering::SeqCst);
        }
        if let Some(now) = milliseconds(&self.clock)
            && now >= self.due.load(Ordering::SeqCst)
        {
            self.draw(now);
        }
    }

    // Another thread that draws meanwhile draws alone.
    fn draw(&self, now: u64) {
        if let Some(screen) = &self.screen
            && let Some(mut screen) = screen.try_lock()
        {
            let now = Mark {
                time: now,
                bytes: self.bytes.load(Ordering::SeqCst),
                place: self.place.load(Ordering::SeqCst),
            };
            screen.draw(now, self.length.load(Ordering::SeqCst));
            self.due
                .store(now.time.saturating_add(PAUSE), Ordering::SeqCst);
            self.stands.store(true, Ordering::SeqCst);
        }
    }
}

// None where the clock cannot be read.
fn milliseconds(clock: &impl Clock) -> Option<u64> {
    let now = clock.monotonic().ok()?;
    let whole = now.as_secs().saturating_mul(1000);
    Some(whole.saturating_add(u64::from(now.subsec_millis())))
}
