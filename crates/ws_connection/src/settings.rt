//! What frames a connection takes.
ghost use Rattle.std.specs.Prelude.{◌≡◌, Some, false};

use websocket::protocol::WebSocketConfig;

/// The most bytes of one message, its fragments together: 16 MiB.
pub const MESSAGE_BYTES: usize = 16 << 20;

/// Messages have at most `MESSAGE_BYTES`, and every frame of a client is masked.
pub(crate) fn settings() -> WebSocketConfig
    ensures messages { result.max_message_size ≡ Some MESSAGE_BYTES }
    ensures frames { result.max_frame_size ≡ Some MESSAGE_BYTES }
    ensures masked { result.accept_unmasked_frames ≡ false }
{
    WebSocketConfig {
        max_message_size: Some(MESSAGE_BYTES),
        max_frame_size: Some(MESSAGE_BYTES),
        accept_unmasked_frames: false,
    }
}
