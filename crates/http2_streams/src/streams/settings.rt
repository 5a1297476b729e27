//! SETTINGS (RFC 9113 section 6.5).

ghost use Rattle.std.specs.Prelude.{◌≡◌, ◌<◌, [], true, false, Some, None, IfOk, OnOk, OnErr, IfSome, IfErr, fold, if◌then◌else◌};
ghost use Rattle.std.specs.List.{list_any};
ghost use Rattle.http2_flow.specs.Credit.{window_limit};
ghost use Rattle.http2_frames.specs.declared.frame.Frame.TheVariants.{Settings};
ghost use Rattle.http2_streams.specs.Decoding.{Gives};
ghost use Rattle.http2_streams.specs.Rules.{no_effect, on_settings, is_above, setting_fault, settings_fault};
ghost use Rattle.http2_streams.specs.Step.{after_answer, after_settings, after_resize, size_after_setting};

use crate::event::StreamEvent;
use crate::fault::ConnectionFault;
use crate::live;
use crate::stream::Stream;
use crate::streams::Streams;
use crate::streams::answers::nothing;
use http2_flow::MAX_SIZE;
use http2_frames::{ErrorCode, Frame, Setting, SettingsList, setting};

impl Streams {
    pub(super) fn on_settings<'a>(
        &mut self,
        ack: bool,
        settings: SettingsList<'a>,
    ) -> Result<StreamEvent<'a>, ConnectionFault>
        ensures answer { Gives result (on_settings self.old ack settings.entry) }
        ensures state { IfOk result (λ a. self.new
            ≡ after_answer a (if ack then self.old else after_settings self.old settings.entry)) }
        ensures err { OnErr result (self.new ≡ self.old) }
    {
        if ack {
            return Ok(nothing());
        }
        match read_settings(&self.live, settings) {
            Ok(Some(initial_window_size)) => self.resize(initial_window_size),
            Ok(None) => {}
            Err(code) => return Err(ConnectionFault::Connection(code)),
        }
        Ok(settings_ack())
    }

    /// Sets the initial size of all streams' windows.
    fn resize(&mut self, initial_window_size: u32)
        requires small { initial_window_size < window_limit }
        requires within { list_any (is_above initial_window_size) self.old.live ≡ false }
        ensures { self.new ≡ after_resize self.old initial_window_size }
    {
        live::resize(&mut self.live, initial_window_size);
        self.initial_window_size = initial_window_size;
    }
}

fn settings_ack<'a>() -> StreamEvent<'a>
    ensures { result ≡ record no_effect { acknowledgement = Some (Settings true []) } }
{
    StreamEvent {
        acknowledgement: Some(Frame::Settings {
            ack: true,
            settings: SettingsList::new(&[]),
        }),
        ..nothing()
    }
}

/// The last initial window size among the settings, if there is one and no setting is a fault.
fn read_settings(live: &[Stream], mut settings: SettingsList<'_>) -> Result<Option<u32>, ErrorCode>
    ensures fault { IfErr result (λ code. settings_fault live.now settings.entry ≡ Some code) }
    ensures faultless { OnOk result (settings_fault live.now settings.entry ≡ None) }
    ensures size { IfOk result (λ size. size ≡ fold size_after_setting None settings.entry) }
    ensures fits { IfOk result (λ size. IfSome size
        (λ n. (n < window_limit) × (list_any (is_above n) live.now ≡ false))) }
{
    let mut size = None;
    while let Some(setting) = settings.pop_first() {
        if let Some(code) = setting_fault(live, setting) {
            return Err(code);
        }
        if setting.identifier == setting::INITIAL_WINDOW_SIZE {
            size = Some(setting.value);
        }
    }
    Ok(size)
}

fn setting_fault(live: &[Stream], setting: Setting) -> Option<ErrorCode>
    ensures { result ≡ setting_fault live.now setting }
{
    let value = setting.value;
    match setting.identifier {
        setting::ENABLE_PUSH if value > 1 => Some(ErrorCode::ProtocolError),
        setting::MAX_FRAME_SIZE if value < 16_384 || value > 16_777_215 => {
            Some(ErrorCode::ProtocolError)
        }
        setting::INITIAL_WINDOW_SIZE if value > MAX_SIZE || live::is_above_limit(live, value) => {
            Some(ErrorCode::FlowControlError)
        }
        _ => None,
    }
}
