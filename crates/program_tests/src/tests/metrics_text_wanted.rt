//! The text that is wanted of some figures. It was written by another program.

pub const WANTED: &str = "\
# HELP remoted_turns_total Turns.\n\
# TYPE remoted_turns_total counter\n\
remoted_turns_total{file=\"/run/\\\"r\\\".prom\"} 27\n\
# HELP remoted_turn_seconds Of calls.\n\
# TYPE remoted_turn_seconds histogram\n\
remoted_turn_seconds_bucket{file=\"/run/\\\"r\\\".prom\",method=\"Read\",le=\"+Inf\"} 3\n\
remoted_turn_seconds_sum{file=\"/run/\\\"r\\\".prom\",method=\"Read\"} 0.028\n\
remoted_turn_seconds_count{file=\"/run/\\\"r\\\".prom\",method=\"Read\"} 3\n\
# HELP remoted_blobs Blobs that are stored.\n\
# TYPE remoted_blobs gauge\n\
remoted_blobs{file=\"/run/\\\"r\\\".prom\",instance=\"re\\\"d\\\\\\n\"} 1\n\
remoted_blobs{file=\"/run/\\\"r\\\".prom\",instance=\"blue\"} 0\n\
# HELP remoted_calls_total Calls that ended.\n\
# TYPE remoted_calls_total counter\n\
remoted_calls_total{file=\"/run/\\\"r\\\".prom\",instance=\"re\\\"d\\\\\\n\",method=\"Read\",status=\"OK\"} 18446744073709551615\n\
remoted_calls_total{file=\"/run/\\\"r\\\".prom\",instance=\"re\\\"d\\\\\\n\",method=\"Read\",status=\"NOT_FOUND\"} 4\n\
# HELP remoted_jobs_ran_seconds_total Together.\n\
# TYPE remoted_jobs_ran_seconds_total counter\n\
remoted_jobs_ran_seconds_total{file=\"/run/\\\"r\\\".prom\",instance=\"re\\\"d\\\\\\n\"} 1.005\n\
remoted_jobs_ran_seconds_total{file=\"/run/\\\"r\\\".prom\",instance=\"blue\"} 1.005\n\
";
